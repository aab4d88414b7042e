//! How a helper ends.
use std::alloc::AllocError;

/// Why words ask for nothing.
#[derive(Clone, Copy, Debug, PartialEq, Eq)]
pub enum Refusal {
    /// They are not of the grammar.
    Usage,
    /// A place or a name is no path of this account.
    BadPath,
}

/// How a helper ends.
#[derive(Clone, Copy, Debug, PartialEq, Eq)]
pub enum Status {
    /// All is done.
    Done,
    /// The words are not of the grammar.
    Usage,
    /// A place or a name is no path of this account.
    BadPath,
    /// The source failed.
    SourceFault,
    /// The sink failed.
    SinkFault,
    /// The spool failed.
    SpoolFault,
    /// All 4,095 numbers are taken.
    NumbersTaken,
    /// More than 16,777,216 bytes were read.
    InputTooLarge,
    /// Out of memory.
    OutOfMemory,
}

impl Status {
    ghost use Rattle.std.specs.Prelude.{◌≡◌};
    ghost use Rattle.mt_helper.specs.Ends.{code_of};

    /// The exit status of the program: 0 where all is done.
    pub fn code(self) -> u8
        ensures { result ≡ code_of self }
    {
        match self {
            Status::Done => 0,
            Status::Usage => 1,
            Status::BadPath => 2,
            Status::SourceFault => 3,
            Status::SinkFault => 4,
            Status::SpoolFault => 5,
            Status::NumbersTaken => 6,
            Status::InputTooLarge => 7,
            Status::OutOfMemory => 8,
        }
    }
}

/// Why words were not read.
#[derive(Clone, Copy, Debug, PartialEq, Eq)]
pub(crate) enum WordsError {
    /// They ask for nothing.
    Refused(Refusal),
    /// Out of memory.
    Memory,
}

impl From<AllocError> for WordsError {
    ghost use Rattle.std.specs.Prelude.{◌≡◌};
    ghost use Rattle.mt_helper.specs.declared.status.WordsError.TheVariants.{Memory};

    ghost from_gives = { λ _ e. e ≡ Memory };

    fn from(_error: AllocError) -> WordsError {
        WordsError::Memory
    }
}
