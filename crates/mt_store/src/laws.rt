//! Laws: what is decided over references is decided over the bytes that they stand for.
ghost use Rattle.std.specs.Prelude.{List, ℕ};
ghost use Rattle.mt_types.specs.declared.body.Body.{Body};
ghost use Rattle.mt_store.specs.Laws.{DeleteIsRead, LinkIsRead, PutIsRead, ReadIsRead};

/// Puts, links, deletes and reads are decided alike over rows of references and over rows of the bytes that are read
/// for them.
pub fn decisions_are_read()
    ensures put { PutIsRead Body (List ℕ) }
    ensures link { LinkIsRead Body (List ℕ) }
    ensures delete { DeleteIsRead Body (List ℕ) }
    ensures read { ReadIsRead Body (List ℕ) }
{}
