//! A disk in memory, which keeps a record of its calls.
use crate::contents::Contents;
use crate::crash::{CrashError, Pick};
use crate::disk::{Disk, DiskFault, FileNo};
use crate::record::{Entry, Record};
use std::alloc::{AllocError, Global};
use std::marker::Model;

/// The room that a disk in memory takes when it is made.
#[derive(Clone, Copy, Debug)]
pub struct Room {
    /// Bytes in each file.
    pub file: usize,
    /// Calls of `write_at`, `cut` and `sync`.
    pub calls: usize,
    /// Bytes of all writes together.
    pub written: usize,
}

/// A disk in memory, for tests. All its calls are counted from 0, and those whose numbers it was given fail.
/// It takes no memory after it is made: a call past its room is a fault, and counted.
#[derive(Drop)]
pub struct MemDisk {
    base: Contents,
    current: Contents,
    past: Record,
    calls: u64,
    failing: Vec<u64>,
    faults: u64,
}

impl Model for MemDisk {
    ghost use Rattle.std.specs.Prelude.{◌≡◌};
    ghost use Rattle.mt_disk.specs.Calls.{seen_after};
    ghost use Rattle.mt_disk.specs.MemState.{MemState};

    ghost Value = { MemState };

    ghost view = { λ d. record { base = d.base.files; past = d.past; faults = d.faults; calls = d.calls } };

    // The files hold what the calls made of them.
    ghost invariant = { λ d. d.current.files ≡ seen_after d.base.files d.past };
}

impl MemDisk {
    ghost use Rattle.std.specs.Prelude.{◌≡◌, IfOk};
    ghost use Rattle.mt_disk.specs.Files.{contents};
    ghost use Rattle.mt_disk.specs.Calls.{seen_after};
    ghost use Rattle.mt_disk.specs.MemState.{fresh};

    /// A disk at rest whose files hold copies of these bytes, and whose calls of these numbers will fail.
    pub fn new(
        alloc: Global,
        head: &[u8],
        one: &[u8],
        two: &[u8],
        room: Room,
        failing: &[u64],
    ) -> Result<Self, AllocError>
        ensures { IfOk result (λ disk. disk ≡ fresh (record { head = head.now; one = one.now; two = two.now })) }
    {
        Ok(MemDisk {
            base: Contents::new(alloc, head, one, two, room.file)?,
            current: Contents::new(alloc, head, one, two, room.file)?,
            past: Record::new(alloc, room.calls, room.written)?,
            calls: 0,
            failing: Vec::from_slice(alloc, failing)?,
            faults: 0,
        })
    }

    /// What a read of a file gives. It isn't a call of the disk.
    pub fn file(&self, file: FileNo) -> &[u8]
        ensures { result.now ≡ contents (seen_after self.now.base self.now.past) file }
    {
        self.current.file(file)
    }

    /// How many calls of the disk were made.
    pub fn calls(&self) -> u64
        ensures { result ≡ self.now.calls }
    {
        self.calls
    }
}

impl MemDisk {
    ghost use Rattle.std.specs.Prelude.{◌≡◌, ◌<◌, length, IfOk, IsErrOf};
    ghost use Rattle.mt_disk.specs.Calls.{seen_after};
    ghost use Rattle.mt_disk.specs.MemState.{IsLeftBy};

    /// The disk after a crash, at rest at the image that the picks make. The first pick is of the newest call
    /// that writes, cuts or syncs, and a sync's changes nothing. Of a call without a pick a crash leaves what a
    /// read shows of it. The numbers of calls go on.
    pub fn crash(self, picks: &[Pick]) -> Result<Self, CrashError>
        ensures left { IfOk result (λ disk. IsLeftBy self disk) }
        ensures unpicked { length picks.now ≡ 0 → IfOk result (λ disk. disk.base ≡ seen_after self.base self.past) }
        ensures refused { IsErrOf result CrashError.NotAnImage → 0 < length picks.now }
    {
        let MemDisk {
            base: mut image,
            current: mut seen,
            mut past,
            calls,
            failing,
            faults,
        } = self;
        seen.copy_from(&image)?;
        past.replay(&mut image, &mut seen, picks)?;
        seen.copy_from(&image)?;
        past.clear();
        Ok(MemDisk {
            base: image,
            current: seen,
            past,
            calls,
            failing,
            faults,
        })
    }
}

impl MemDisk {
    ghost use Rattle.std.specs.Prelude.{◌≡◌, IsTrue, IsErr};
    ghost use Rattle.mt_base.specs.Counts.{Rose, NeverFell};

    // Whether this call fails. It is counted, and so is its fault.
    fn fails(&mut self) -> bool
        ensures same { self.new ≡ record self.old { faults = self.new.faults; calls = self.new.calls } }
        ensures later { NeverFell self.old.faults self.new.faults }
        ensures fault { IsTrue result → Rose self.old.faults self.new.faults }
    {
        let fails = self.failing.contains(&self.calls);
        self.calls = self.calls.saturating_add(1);
        if fails {
            self.faults = self.faults.saturating_add(1);
        }
        fails
    }

    // A fault of a call that has no room.
    fn fault(&mut self) -> Result<(), DiskFault>
        ensures same { self.new ≡ record self.old { faults = self.new.faults } }
        ensures fault { Rose self.old.faults self.new.faults }
        ensures err { IsErr result }
    {
        self.faults = self.faults.saturating_add(1);
        Err(DiskFault)
    }
}

impl Disk for MemDisk {
    ghost use Rattle.std.specs.Prelude.{Some, length, ⊤};
    ghost use Rattle.mt_disk.specs.Calls.{seen_after, Left, LeftSince};
    ghost use Rattle.mt_disk.specs.CallLaws.{left_now, left_only, seen_left};

    ghost seen = { λ d. Some (seen_after d.base d.past) };

    ghost may_leave = { λ d c. Left d.base d.past c };

    ghost moment = { λ d. length d.past };

    ghost left_since = { λ d t c. LeftSince d.base d.past t c };

    ghost faults = { λ d. d.faults };

    ghost stays = { λ a b. ⊤ };

    ghost counts_now = { λ d t c le left. left_now d.base d.past t c left };

    ghost only_now = { λ d c left. left_only d.base d.past c left };

    ghost seen_is_left = { λ d files is. seen_left d.base d.past files is };

    ghost same = { λ d. tt };

    ghost joined = { λ a b c h k. tt };

    fn len(&mut self, file: FileNo) -> Result<u64, DiskFault> {
        if self.fails() {
            return Err(DiskFault);
        }
        Ok(self.current.file(file).len() as u64)
    }

    fn read(&mut self, file: FileNo, at: u64, into: &mut [u8]) -> Result<(), DiskFault> {
        if self.fails() {
            return Err(DiskFault);
        }
        let at = at as usize;
        into.copy_from_slice(&self.current.file(file)[at..at + into.len()]);
        Ok(())
    }

    fn write_at(&mut self, file: FileNo, at: u64, piece: &[u8]) -> Result<(), DiskFault> {
        let fails = self.fails();
        if !self.current.has_room(at as usize, piece.len()) {
            return self.fault();
        }
        // A write that fails is recorded too, since it may have reached the disk in part.
        let entry = Entry::Write {
            file,
            at,
            len: piece.len(),
            done: !fails,
        };
        if self.past.add(entry, piece).is_err() {
            return self.fault();
        }
        if fails {
            return Err(DiskFault);
        }
        self.current.write(file, at as usize, piece);
        Ok(())
    }

    fn cut(&mut self, file: FileNo, to: u64) -> Result<(), DiskFault> {
        let fails = self.fails();
        let entry = Entry::Cut {
            file,
            to,
            done: !fails,
        };
        if self.past.add(entry, &[]).is_err() {
            return self.fault();
        }
        if fails {
            return Err(DiskFault);
        }
        self.current.cut(file, to as usize);
        Ok(())
    }

    fn sync(&mut self, file: FileNo) -> Result<(), DiskFault> {
        if self.fails() {
            return Err(DiskFault);
        }
        if self.past.add(Entry::Sync { file }, &[]).is_err() {
            return self.fault();
        }
        Ok(())
    }
}
