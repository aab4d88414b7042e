//! Why the work was not done, as a line and a status.
use mt_log::OpenError;
use std::alloc::{AllocError, AllocFailed};
use std::fmt;

/// Why the work was not done.
#[derive(Clone, Copy)]
pub(crate) enum Fault {
    /// The words are not of the grammar.
    Usage,
    /// The log can't be opened.
    Opening(OpenError),
    /// Standard input has failed.
    Input,
    /// Standard output has failed.
    Output,
    /// The disk has failed.
    Disk,
    /// The log would pass its limit.
    Full,
    /// Out of memory.
    Memory,
}

impl Fault {
    /// The status of the program, which is that of `mantad` for a like fault.
    pub(crate) fn status(self) -> u8 {
        match self {
            Fault::Usage => 1,
            Fault::Opening(_) => 2,
            Fault::Input => 3,
            Fault::Output => 4,
            Fault::Disk | Fault::Full => 5,
            Fault::Memory => 8,
        }
    }
}

impl fmt::Display for Fault {
    fn fmt<W: fmt::Write>(&self, f: &mut fmt::Formatter<W>) -> fmt::Result {
        match self {
            Fault::Usage => write!(f, "usage: body_bench store|copy|join FOLDER"),
            Fault::Opening(e) => write!(f, "the log can't be opened: {e:?}"),
            Fault::Input => write!(f, "standard input has failed"),
            Fault::Output => write!(f, "standard output has failed"),
            Fault::Disk => write!(f, "the disk has failed"),
            Fault::Full => write!(f, "the log would pass its limit"),
            Fault::Memory => write!(f, "want of memory"),
        }
    }
}

impl From<OpenError> for Fault {
    fn from(e: OpenError) -> Fault {
        match e {
            OpenError::Memory => Fault::Memory,
            e => Fault::Opening(e),
        }
    }
}

impl From<AllocError> for Fault {
    fn from(_: AllocError) -> Fault {
        Fault::Memory
    }
}

impl<T: Drop> From<AllocFailed<T>> for Fault {
    fn from(_: AllocFailed<T>) -> Fault {
        Fault::Memory
    }
}
