//! The log as a value: where it ends on its disk, and how long it may get.
use mt_disk::FileNo;
use std::marker::Model;

/// How many bytes a log begins with.
pub(crate) const MAGIC_LEN: u64 = 8;

/// The bytes of a log without a payload: the first eight and a gate.
pub(crate) const EMPTY_LEN: u64 = MAGIC_LEN + 1;

/// What a record has beside its payload: gate, length and MD5.
pub(crate) const RECORD_HEAD: u64 = 1 + 4 + 16;

/// A log of payloads on a disk, which is handed to each call anew. It holds no payload itself.
#[derive(Drop)]
pub struct Log {
    pub(crate) file: FileNo,
    pub(crate) gate: u64,
    pub(crate) limit: u64,
    pub(crate) closed: bool,
    pub(crate) is_old: bool,
}

impl Model for Log {
    ghost use Rattle.std.specs.Prelude.{◌<◌, ◌≤◌, ◌+◌, ◌^◌};
    ghost use Rattle.mt_log.specs.LogImage.{magic_size};
    ghost use Rattle.mt_log.specs.LogState.{LogState};

    ghost Value = { LogState };

    ghost view = { λ l. record { file = l.file; gate = l.gate; limit = l.limit; closed = l.closed; is_old = l.is_old } };

    ghost invariant = { λ l. (l.gate + 1 < 2 ^ 64) × (magic_size ≤ l.gate) };
}

impl Log {
    ghost use Rattle.std.specs.Prelude.{◌≡◌, ◌↔◌, ◌+◌, ℕ, List, true, IsTrue, length};
    ghost use Rattle.mt_log.specs.Places.{from_place};
    ghost use Rattle.mt_log.specs.LogImage.{log_magic};
    ghost use Rattle.mt_log.specs.LogState.{HasRoom};

    /// The bytes of the log with its closed gate.
    pub fn len(&self) -> u64
        ensures { result ≡ self.now.gate + 1 }
    {
        self.gate + 1
    }

    /// The place of the first record, or of the closed gate where there is none.
    pub fn first(&self) -> u64
        ensures place { result ≡ length log_magic }
        ensures all { (ps : List (List ℕ)) → from_place result ps ≡ ps }
    {
        MAGIC_LEN
    }

    /// Whether the limit lets in a payload of so many bytes.
    pub fn has_room(&self, payload: u64) -> bool
        ensures { IsTrue result ↔ HasRoom self.now payload }
    {
        self.limit > self.gate
            && self.limit - self.gate > RECORD_HEAD
            && self.limit - self.gate - RECORD_HEAD > payload
    }

    /// The file that holds the log.
    pub fn file(&self) -> FileNo
        ensures { result ≡ self.now.file }
    {
        self.file
    }

    /// How many bytes the log may get long, with its closed gate.
    pub fn limit(&self) -> u64
        ensures { result ≡ self.now.limit }
    {
        self.limit
    }

    /// Whether the log is of the old version. Such a log is read, and gets no run.
    pub fn is_old(&self) -> bool
        ensures { result ≡ self.now.is_old }
    {
        self.is_old
    }

    /// Closes the log: it takes no more, and is to be opened again. It makes no call of the disk.
    pub fn close(&mut self)
        ensures { self.new ≡ record self.old { closed = true } }
    {
        self.closed = true;
    }

    /// Whether the log takes no more, since a call of the disk failed. It is to be opened again.
    pub fn is_closed(&self) -> bool
        ensures { result ≡ self.now.closed }
    {
        self.closed
    }
}
