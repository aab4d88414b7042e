//! Why a log can't be opened.
ghost use Rattle.std.specs.Prelude.{◌≡◌};
ghost use Rattle.mt_opening.specs.Opening.{end_by, end_of_reading};
ghost use Rattle.mt_opening.specs.declared.opening.OpenEnd.TheVariants.{Disk, Memory};

use mt_disk::DiskFault;
use mt_log::{OpenError, ReadFault};
use std::alloc::AllocError;

/// Why a log can't be read. Places and lengths are in bytes of the file that holds it.
#[derive(Clone, Copy, Debug, PartialEq, Eq)]
pub enum Unreadable {
    /// It has fewer than nine bytes, or begins with those of no version.
    NotALog,
    /// It begins with the bytes of the old version.
    OldVersion,
    /// The open record at this place keeps one MD5, and its payload has another.
    Damaged {
        at: u64,
        kept: [u8; 16],
        computed: [u8; 16],
    },
    /// From this place on a record, or the gate that has to follow one, wants so many bytes, and fewer are left.
    Short {
        at: u64,
        wanted: u64,
        left: u64,
    },
    /// The record at this place is neither a piece of a body nor a command that may stand there.
    Foreign {
        at: u64,
    },
}

/// Why no engine was opened.
#[derive(Clone, Copy, Debug, PartialEq, Eq)]
pub enum OpenEnd {
    /// The log can't be read.
    Unreadable(Unreadable),
    /// The disk failed, and counted it.
    Disk,
    /// Out of memory.
    Memory,
}

impl From<DiskFault> for OpenEnd {
    ghost from_gives = { λ _ e. e ≡ Disk };

    fn from(_: DiskFault) -> Self {
        OpenEnd::Disk
    }
}

impl From<AllocError> for OpenEnd {
    ghost from_gives = { λ _ e. e ≡ Memory };

    fn from(_: AllocError) -> Self {
        OpenEnd::Memory
    }
}

impl From<ReadFault> for OpenEnd {
    ghost from_gives = { λ fault e. e ≡ end_of_reading fault };

    fn from(fault: ReadFault) -> Self {
        match fault {
            ReadFault::Disk => OpenEnd::Disk,
            ReadFault::Memory => OpenEnd::Memory,
        }
    }
}

// How an opening ends that the log refused.
pub(crate) fn refused(error: OpenError) -> OpenEnd
    ensures { result ≡ end_by error }
{
    match error {
        OpenError::NotALog => OpenEnd::Unreadable(Unreadable::NotALog),
        OpenError::OldVersion => OpenEnd::Unreadable(Unreadable::OldVersion),
        OpenError::Damaged { at, kept, computed } => {
            OpenEnd::Unreadable(Unreadable::Damaged { at, kept, computed })
        }
        OpenError::Short { at, wanted, left } => {
            OpenEnd::Unreadable(Unreadable::Short { at, wanted, left })
        }
        OpenError::Disk => OpenEnd::Disk,
        OpenError::Memory => OpenEnd::Memory,
    }
}

// How an opening ends at a record that adds nothing.
pub(crate) fn foreign(at: u64) -> OpenEnd
    ensures { result ≡ OpenEnd.Unreadable (Unreadable.Foreign at) }
{
    OpenEnd::Unreadable(Unreadable::Foreign { at })
}
