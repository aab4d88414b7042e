//! Where bodies stand in the log that is written.
ghost use Rattle.std.specs.Prelude.{◌≡◌};

use mt_types::Body;

/// The places of bodies in another log. A body keeps its length.
pub trait Moves {
    ghost use Rattle.std.specs.Prelude.{ℕ};
    ghost use Rattle.mt_types.specs.declared.body.Body.{Body};

    /// The place there of the first piece of a body.
    ghost place: { Self → Body → ℕ };

    /// The place there of the first piece of a body, in bytes. Takes no memory.
    fn first(&self, body: &Body) -> u64
        ensures { result ≡ place self.now body.now };
}

/// Each body has the place that it has: of records whose sizes alone are asked, or whose log is the same.
#[derive(Clone, Copy, Debug)]
pub struct Unmoved;

impl Moves for Unmoved {
    ghost place = { λ _ body. body.first };

    fn first(&self, body: &Body) -> u64 {
        body.first
    }
}
