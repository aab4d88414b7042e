//! Laws of stored bodies.
ghost use Rattle.std.specs.Prelude.{◌≡◌, ◌++◌, ℕ, List, length};
ghost use Rattle.mt_types.specs.declared.body.Body.{Body};
ghost use Rattle.mt_body.specs.Stored.{KeepsBodies, bytes_of};

/// A stored body stays while the log grows, and stands for the same bytes.
pub fn stored_bodies_stay()
    ensures { (ps qs : List (List ℕ)) → KeepsBodies ps (ps ++ qs) }
{}

/// A body has as many bytes as it says, in any log.
pub fn as_many_bytes()
    ensures { (ps : List (List ℕ)) (b : Body) → length (bytes_of ps b) ≡ b.len }
{}
