//! Laws: values without floats are read from their texts, alone and as lines.
ghost use Rattle.mt_json.specs.Laws.{LinesReadAgain, TextsAreLines, ValuesReadAgain};

/// A value without floats is read from its text, which has no line feed, and a list of such values from their lines.
pub fn values_read_again()
    ensures again { ValuesReadAgain }
    ensures line { TextsAreLines }
    ensures lines { LinesReadAgain }
{}
