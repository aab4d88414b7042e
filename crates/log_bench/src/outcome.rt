//! What was done, and why nothing was, each as a line and a status.
use mt_log::{AppendError, OpenError};
use std::alloc::{AllocError, AllocFailed};
use std::fmt;

/// What was done.
#[derive(Clone, Copy)]
pub(crate) enum Done {
    /// So many records were added to a log, which now has so many bytes.
    Log { records: u64, len: u64 },
    /// Payloads were digested, and this is the digest of their digests.
    Digest([u8; 16]),
}

/// Why the work was not done.
#[derive(Clone, Copy)]
pub(crate) enum Fault {
    /// The words are not of the grammar.
    Usage,
    /// The log can't be opened.
    Opening(OpenError),
    /// A record isn't added.
    Adding(AppendError),
    /// Standard output has failed.
    Output,
    /// Out of memory.
    Memory,
}

impl Fault {
    /// The status of the program, which is that of `mantad` for a like fault.
    pub(crate) fn status(self) -> u8 {
        match self {
            Fault::Usage => 1,
            Fault::Opening(_) => 2,
            Fault::Output => 4,
            Fault::Adding(_) => 5,
            Fault::Memory => 8,
        }
    }
}

impl fmt::Display for Done {
    fn fmt<W: fmt::Write>(&self, f: &mut fmt::Formatter<W>) -> fmt::Result {
        match self {
            Done::Log { records, len } => {
                write!(f, "{records} records added, the log has {len} bytes")
            }
            Done::Digest(sum) => {
                for byte in sum {
                    write!(f, "{byte:02x}")?;
                }
                Ok(())
            }
        }
    }
}

impl fmt::Display for Fault {
    fn fmt<W: fmt::Write>(&self, f: &mut fmt::Formatter<W>) -> fmt::Result {
        match self {
            Fault::Usage => write!(
                f,
                "usage: log_bench append|run FOLDER COUNT SIZE, open FOLDER, digest COUNT SIZE"
            ),
            Fault::Opening(e) => write!(f, "the log can't be opened: {e:?}"),
            Fault::Adding(e) => write!(f, "a record isn't added: {e:?}"),
            Fault::Output => write!(f, "standard output has failed"),
            Fault::Memory => write!(f, "want of memory"),
        }
    }
}

impl From<OpenError> for Fault {
    fn from(e: OpenError) -> Fault {
        match e {
            OpenError::Memory => Fault::Memory,
            e => Fault::Opening(e),
        }
    }
}

impl From<AppendError> for Fault {
    fn from(e: AppendError) -> Fault {
        Fault::Adding(e)
    }
}

impl From<AllocError> for Fault {
    fn from(_: AllocError) -> Fault {
        Fault::Memory
    }
}

impl<T: Drop> From<AllocFailed<T>> for Fault {
    fn from(_: AllocFailed<T>) -> Fault {
        Fault::Memory
    }
}
