//! The record of a disk's calls.
ghost use Rattle.std.specs.Prelude.{◌≡◌, ◌<◌, ◌∷◌, [], length, IfOk, OnOk, OnErr, IsErrOf};

use crate::contents::Contents;
use crate::crash::{CrashError, Pick, step};
use crate::disk::{DiskFault, FileNo};
use std::alloc::{AllocError, Global};
use std::marker::Model;

/// A call that changed something, but for its bytes.
#[derive(Clone, Copy)]
pub(crate) enum Entry {
    /// A write of so many bytes at a place; one that failed isn't done.
    Write {
        file: FileNo,
        at: u64,
        len: usize,
        done: bool,
    },
    /// A cut to a length; one that failed isn't done.
    Cut {
        file: FileNo,
        to: u64,
        done: bool,
    },
    /// A sync that was done.
    Sync {
        file: FileNo,
    },
}

impl Entry {
    ghost use Rattle.mt_disk.specs.Entries.{size_of_entry};

    // How many of the written bytes are this call's.
    fn size(&self) -> usize
        ensures { result ≡ size_of_entry self.now }
    {
        match self {
            Entry::Write { len, .. } => *len,
            Entry::Cut { .. } | Entry::Sync { .. } => 0,
        }
    }
}

/// The calls of a disk from its first on, in a fixed room. The bytes of all writes stand in one list.
#[derive(Drop)]
pub(crate) struct Record {
    entries: Vec<Entry>,
    written: Vec<u8>,
}

impl Model for Record {
    ghost use Rattle.std.specs.Prelude.{◌≡◌, List, [], length, sum_by};
    ghost use Rattle.mt_disk.specs.Calls.{DiskCall};
    ghost use Rattle.mt_disk.specs.Entries.{calls_onto, size_of_entry};

    ghost Value = { List DiskCall };

    ghost view = { λ r. calls_onto [] r.entries.items r.written.items };

    ghost invariant = { λ r. length r.written.items ≡ sum_by size_of_entry r.entries.items };
}

impl Record {
    ghost use Rattle.mt_disk.specs.Calls.{Left, seen_after};
    ghost use Rattle.mt_disk.specs.Entries.{call_of, size_of_entry};

    /// No calls yet, and room for so many, with so many bytes in all.
    pub(crate) fn new(alloc: Global, calls: usize, bytes: usize) -> Result<Self, AllocError>
        ensures { IfOk result (λ r. r ≡ []) }
    {
        Ok(Record {
            entries: Vec::with_capacity(alloc, calls)?,
            written: Vec::with_capacity(alloc, bytes)?,
        })
    }

    /// Adds a call within the room that there is.
    pub(crate) fn add(&mut self, entry: Entry, bytes: &[u8]) -> Result<(), DiskFault>
        requires { size_of_entry entry ≡ length bytes.now }
        ensures ok { OnOk result (self.new ≡ call_of entry bytes.now ∷ self.old) }
        ensures err { OnErr result (self.new ≡ self.old) }
    {
        if self.entries.len() == self.entries.capacity()
            || self.written.capacity() - self.written.len() < bytes.len()
        {
            return Err(DiskFault);
        }
        let len = self.written.len();
        if self.written.extend_from_slice(bytes).is_err() {
            return Err(DiskFault);
        }
        if self.entries.push(entry).is_err() {
            self.written.truncate(len);
            return Err(DiskFault);
        }
        Ok(())
    }

    /// No calls, and the same room.
    pub(crate) fn clear(&mut self)
        ensures { self.new ≡ [] }
    {
        self.entries.clear();
        self.written.clear();
    }

    /// Does to an image, which is what the disk held at first, what the picks leave of the calls, and to a
    /// second copy what the calls did. The first pick is of the newest call; a call without one is done.
    pub(crate) fn replay(
        &self,
        image: &mut Contents,
        seen: &mut Contents,
        picks: &[Pick],
    ) -> Result<(), CrashError>
        requires { image.old.files ≡ seen.old.files }
        ensures left { OnOk result (Left image.old.files self.now image.new.files) }
        ensures unpicked { length picks.now ≡ 0 → OnOk result (image.new.files ≡ seen_after image.old.files self.now) }
        ensures refused { IsErrOf result CrashError.NotAnImage → 0 < length picks.now }
    {
        let mut from = 0;
        let mut later = self.entries.len();
        for entry in &self.entries {
            later -= 1;
            let to = from + entry.size();
            let bytes = &self.written[from..to];
            let pick = picks.get(later).copied();
            step(image, seen, *entry, bytes, pick)?;
            from = to;
        }
        Ok(())
    }
}
