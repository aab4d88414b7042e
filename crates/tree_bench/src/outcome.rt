//! Why the work was not done, as a line and a status.
use mt_path::PathError;
use mt_tree::Refusal;
use std::alloc::{AllocError, AllocFailed};
use std::fmt;

/// Why the work was not done.
#[derive(Clone, Copy)]
pub(crate) enum Fault {
    /// The words are not of the grammar.
    Usage,
    /// The tree refused a row.
    Refused(Refusal),
    /// A name is no path.
    Path(PathError),
    /// Standard input has failed.
    Input,
    /// Standard output has failed.
    Output,
    /// Out of memory.
    Memory,
}

impl Fault {
    /// The status of the program.
    pub(crate) fn status(self) -> u8 {
        match self {
            Fault::Usage => 1,
            Fault::Refused(_) | Fault::Path(_) => 2,
            Fault::Input => 3,
            Fault::Output => 4,
            Fault::Memory => 8,
        }
    }
}

impl fmt::Display for Fault {
    fn fmt<W: fmt::Write>(&self, f: &mut fmt::Formatter<W>) -> fmt::Result {
        match self {
            Fault::Usage => write!(
                f,
                "usage: tree_bench ROWS rising|mixed; lines are puts, paths N, gets N, counts N, pages N, blank N, text"
            ),
            Fault::Refused(refusal) => write!(f, "the tree refused a row: {refusal:?}"),
            Fault::Path(e) => write!(f, "a name is no path: {e:?}"),
            Fault::Input => write!(f, "standard input has failed"),
            Fault::Output => write!(f, "standard output has failed"),
            Fault::Memory => write!(f, "want of memory"),
        }
    }
}

impl From<Refusal> for Fault {
    fn from(refusal: Refusal) -> Fault {
        Fault::Refused(refusal)
    }
}

impl From<PathError> for Fault {
    fn from(e: PathError) -> Fault {
        match e {
            PathError::Memory => Fault::Memory,
            e => Fault::Path(e),
        }
    }
}

impl From<AllocError> for Fault {
    fn from(_: AllocError) -> Fault {
        Fault::Memory
    }
}

impl<T: Drop> From<AllocFailed<T>> for Fault {
    fn from(_: AllocFailed<T>) -> Fault {
        Fault::Memory
    }
}
