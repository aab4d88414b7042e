//! Where helpers put their records.
ghost use Rattle.std.specs.Prelude.{◌≡◌, ◌<◌, ℕ, List, true, Option, IfSome, length};
ghost use Rattle.mt_spawn.specs.Spools.{Appends, Creates, SpoolFile, has_file};

/// What the making of a file did.
#[derive(Clone, Copy, Debug, PartialEq, Eq)]
pub enum SpoolStep {
    /// An empty file of the number is there now.
    Done,
    /// A file of the number was there.
    Taken,
    /// The spool failed, counted it, and nothing is made.
    Failed,
}

/// The spool failed, and counted it.
#[derive(Clone, Copy, Debug, PartialEq, Eq)]
pub struct SpoolFault;

/// Files by number. A spool that does not tell what it holds has `files` as `None`.
pub trait Spool {
    /// The files in the order in which they were made, where the spool tells them.
    ghost files: { Self → Option (List SpoolFile) };

    /// How often a call has failed. It never falls, and ends at 2 ^ 64 - 1.
    ghost faults: { Self → ℕ };

    /// Makes an empty file of a number, where there is none.
    fn create_new(&mut self, number: u32) -> SpoolStep
        ensures { Creates (files self.old) (faults self.old) number result (files self.new) (faults self.new) };

    /// Adds a piece that is not empty at the end of the file of a number, which is there. Where that fails, a front of the piece may be added, and never all of it.
    fn append(&mut self, number: u32, piece: &[u8]) -> Result<(), SpoolFault>
        requires there { IfSome (files self.old) (λ fs. has_file number fs ≡ true) }
        requires piece { 0 < length piece.now }
        ensures { Appends (files self.old) (faults self.old) number piece.now result (files self.new) (faults self.new) };
}
