//! The draft as a value.
use mt_disk::{DiskFault, FileNo};
use std::alloc::AllocError;
use std::marker::Model;

/// So many bytes are held before they are written.
pub(crate) const PIECE: usize = 65_536;

/// What a record has beside its payload: gate, length and MD5.
pub(crate) const RECORD_HEAD: u64 = 1 + 4 + 16;

/// Why a draft does not go on. The log is as it was.
#[derive(Clone, Copy, Debug, PartialEq, Eq)]
pub enum DraftEnd {
    /// The new log would get longer than its limit. The draft is as it was.
    Full,
    /// The disk has failed. The draft is to be given up, and the log to be opened again.
    Disk,
    /// Out of memory. The draft is to be given up.
    Memory,
}

impl From<DiskFault> for DraftEnd {
    ghost use Rattle.std.specs.Prelude.{◌≡◌};
    ghost use Rattle.mt_draft.specs.declared.draft.DraftEnd.TheVariants.{Disk};

    ghost from_gives = { λ _ e. e ≡ Disk };

    fn from(_: DiskFault) -> Self {
        DraftEnd::Disk
    }
}

impl From<AllocError> for DraftEnd {
    ghost use Rattle.std.specs.Prelude.{◌≡◌};
    ghost use Rattle.mt_draft.specs.declared.draft.DraftEnd.TheVariants.{Memory};

    ghost from_gives = { λ _ e. e ≡ Memory };

    fn from(_: AllocError) -> Self {
        DraftEnd::Memory
    }
}

/// The draft of a log in the file that the disk's log isn't in. Up to 65,536 bytes and a record of it are held.
#[derive(Drop)]
pub struct Draft {
    pub(crate) file: FileNo,
    pub(crate) written: u64,
    pub(crate) held: Vec<u8>,
    pub(crate) limit: u64,
}

impl Model for Draft {
    ghost use Rattle.std.specs.Prelude.{◌<◌, ◌≤◌, ◌+◌, ◌^◌, length};
    ghost use Rattle.mt_draft.specs.Drafts.{DraftState};

    ghost Value = { DraftState };

    ghost view = { λ d. record { file = d.file; written = d.written; held = d.held.items; limit = d.limit } };

    // the closed gate has room
    ghost invariant = { λ d. (d.written + length d.held.items + 1 ≤ d.limit) × (d.limit < 2 ^ 64) };
}

impl Draft {
    ghost use Rattle.std.specs.Prelude.{◌≡◌, ◌↔◌, ◌≤◌, ◌+◌, IsTrue};
    ghost use Rattle.mt_draft.specs.Drafts.{next_of, size_after};

    /// Where the next record goes, in bytes.
    pub fn next(&self) -> u64
        ensures { result ≡ next_of self.now }
    {
        self.written + self.held.len() as u64
    }

    /// How long the log is with the records so far, with its closed gate, in bytes.
    pub fn len(&self) -> u64
        ensures { result ≡ size_after self.now 0 }
    {
        self.written + self.held.len() as u64 + 1
    }

    /// The file that the draft is written into.
    pub(crate) fn file(&self) -> FileNo
        ensures { result ≡ self.now.file }
    {
        self.file
    }

    /// Whether the limit lets in records of so many bytes.
    pub(crate) fn has_room(&self, size: u64) -> bool
        ensures { IsTrue result ↔ (size_after self.now size ≤ self.now.limit) }
    {
        let left = self.limit - self.next();
        left > size
    }
}
