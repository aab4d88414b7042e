//! Laws: what a search shows.
ghost use Rattle.mt_script.specs.Laws.{NamesAreWhole};

/// What a search shows at a row is the text of the row's path.
pub fn names_are_whole()
    ensures { NamesAreWhole }
{}
