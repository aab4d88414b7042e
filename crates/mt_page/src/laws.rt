//! Laws: the page of a store is read as its rows.
ghost use Rattle.std.specs.Prelude.{ℕ, List};
ghost use Rattle.mt_types.specs.declared.body.Body.{Body};
ghost use Rattle.mt_page.specs.Laws.{PagesAreRead};

/// The page of rows of a directory is read as their names and kinds, over references as over the bytes.
pub fn pages_are_read()
    ensures references { PagesAreRead Body }
    ensures bytes { PagesAreRead (List ℕ) }
{}
