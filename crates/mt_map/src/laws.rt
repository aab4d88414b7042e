//! The rows of an account are a map.
ghost use Rattle.std.specs.Prelude.{ℕ, List};
ghost use Rattle.mt_map.specs.Map.{DeleteChanges, IsThere, LinkChanges, MakeDirectoryChanges, OnlyItsOwn, PutChanges};

/// A put, a new directory, a link and a delete change what is at their own path, to just that, and nothing else. No command changes what is at
/// a path that it does not name.
pub fn rows_are_a_map()
    ensures put { PutChanges (List ℕ) }
    ensures there { IsThere (List ℕ) }
    ensures directory { MakeDirectoryChanges (List ℕ) }
    ensures link { LinkChanges (List ℕ) }
    ensures delete { DeleteChanges (List ℕ) }
    ensures others { OnlyItsOwn (List ℕ) }
{}
