//! Laws: lines and fields are all of a text, and are cut where they should be.
ghost use Rattle.std.specs.Prelude.{◌≡◌, ◌≢◌, ◌∷◌, ◌<◌, ◌+◌, List, ℕ, length, slice_index_or};
ghost use Rattle.std.specs.List.{All, flat_map};
ghost use Rattle.mt_split.specs.Partition.{lines_of, fields_of, joined};

/// The lines of a text, one behind the other, are the text. Each has bytes, and none but its last is a line feed.
pub fn lines_are_the_text()
    ensures whole { (text : List ℕ) → flat_map (λ line. line) (lines_of text) ≡ text }
    ensures each { (text : List ℕ) → All (λ line. 0 < length line) (lines_of text) }
    ensures cut { (text : List ℕ) → All (λ line. (k : ℕ) → k + 1 < length line → slice_index_or line k 0 ≢ 10) (lines_of text) }
{}

/// The fields of a line, with the delimiter between each two, are the line, and no delimiter is in one.
pub fn fields_are_the_line()
    ensures whole { (delimiter : ℕ) (line : List ℕ) → joined delimiter (fields_of delimiter line) ≡ line }
    ensures cut { (delimiter : ℕ) (line : List ℕ) → All (λ field. All (λ byte. byte ≢ delimiter) field) (fields_of delimiter line) }
{}
