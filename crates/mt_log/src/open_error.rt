//! Why a log isn't opened.
ghost use Rattle.std.specs.Prelude.{◌≡◌};
ghost use Rattle.mt_log.specs.declared.open_error.OpenError.TheVariants.{Disk, Memory};

use mt_disk::DiskFault;
use std::alloc::AllocError;

/// Why a log isn't opened. Places and lengths are in bytes of the file that holds the log.
#[derive(Clone, Copy, Debug, PartialEq, Eq)]
pub enum OpenError {
    /// The file that holds the log has fewer than nine bytes, or begins with those of no version.
    NotALog,
    /// It begins with the bytes of the old version.
    OldVersion,
    /// The open record at this place keeps one MD5, and its payload has another.
    Damaged {
        at: u64,
        kept: [u8; 16],
        computed: [u8; 16],
    },
    /// From this place on a record, or the gate that has to follow one, wants so many bytes, and fewer are left.
    Short {
        at: u64,
        wanted: u64,
        left: u64,
    },
    /// The disk has failed. Its log has the payloads of before.
    Disk,
    /// Out of memory.
    Memory,
}

impl From<DiskFault> for OpenError {
    ghost from_gives = { λ _ e. e ≡ Disk };

    fn from(_: DiskFault) -> Self {
        OpenError::Disk
    }
}

impl From<AllocError> for OpenError {
    ghost from_gives = { λ _ e. e ≡ Memory };

    fn from(_: AllocError) -> Self {
        OpenError::Memory
    }
}
