//! A disk in memory that does not tell what it holds, so that rows may ask anything of what stands over it.
ghost use Rattle.std.specs.Prelude.{◌≡◌, ◌≤◌, ◌+◌, IsTrue, length};
ghost use Rattle.mt_base.specs.Counts.{HasCause};
ghost use Rattle.mt_disk.specs.Files.{contents};
ghost use Rattle.mt_disk.specs.Calls.{seen_after};

use mt_disk::{CrashError, Disk, DiskFault, FileNo, MemDisk, Pick, Room};
use std::alloc::{AllocError, Global};
use std::marker::Model;

/// A disk in memory. A call that doesn't fit into the file is a fault, and so are those of the numbers that are set.
#[derive(Drop)]
pub struct Untold {
    disk: MemDisk,
    room: Room,
    failing: Vec<u64>,
    made: u64,
    faults: u64,
}

impl Model for Untold {
    ghost use Rattle.std.specs.Prelude.{ℕ};

    ghost Value = { ℕ };

    ghost view = { λ d. d.faults };
}

fn counted<T>(faults: &mut u64, done: Result<T, DiskFault>) -> Result<T, DiskFault>
    ensures same { result ≡ done }
    ensures cause { HasCause faults.old faults.new result }
{
    if done.is_err() {
        *faults = faults.saturating_add(1);
    }
    done
}

// Whether the next call is to fail.
fn next_fails(failing: &[u64], made: &mut u64) -> bool {
    let fails = failing.contains(made);
    *made = made.saturating_add(1);
    fails
}

// Whether a file has so many bytes from a place on.
fn fits(disk: &MemDisk, file: FileNo, at: u64, len: u64) -> bool
    ensures { IsTrue result → at + len ≤ length (contents (seen_after disk.now.base disk.now.past) file) }
{
    let have = disk.file(file).len() as u64;
    at <= have && len <= have - at
}

impl Untold {
    /// An empty disk of this room.
    pub fn new(alloc: Global, room: Room) -> Result<Untold, AllocError> {
        Ok(Untold {
            disk: MemDisk::new(alloc, b"", b"", b"", room, &[])?,
            room,
            failing: Vec::new(alloc),
            made: 0,
            faults: 0,
        })
    }

    /// The disk of these files, of whose own calls, those that fit, the ones of these numbers fail.
    pub fn of(
        alloc: Global,
        files: &[Vec<u8>; 3],
        room: Room,
        failing: &[u64],
    ) -> Result<Untold, AllocError> {
        let [head, one, two] = files;
        Ok(Untold {
            disk: MemDisk::new(alloc, head, one, two, room, failing)?,
            room,
            failing: Vec::new(alloc),
            made: 0,
            faults: 0,
        })
    }

    /// A disk at rest with what a read of another gives, and room for as much.
    pub fn over(alloc: Global, other: &Untold) -> Result<Untold, AllocError> {
        let head = other.file(FileNo::Head);
        let one = other.file(FileNo::One);
        let two = other.file(FileNo::Two);
        Ok(Untold {
            disk: MemDisk::new(alloc, head, one, two, other.room, &[])?,
            room: other.room,
            failing: Vec::new(alloc),
            made: 0,
            faults: 0,
        })
    }

    /// What a crash leaves by these picks.
    pub fn crash(self, alloc: Global, picks: &[Pick]) -> Result<Untold, CrashError> {
        let room = self.room;
        let disk = self.disk.crash(picks)?;
        Ok(Untold {
            disk,
            room,
            failing: Vec::new(alloc),
            made: 0,
            faults: 0,
        })
    }

    /// The calls from now on are counted from 0, and those of these numbers fail.
    pub fn fail(&mut self, failing: Vec<u64>) {
        self.failing = failing;
        self.made = 0;
    }

    /// How many calls were made since then.
    pub fn made(&self) -> u64 {
        self.made
    }

    /// How many calls were made that fit.
    pub fn calls(&self) -> u64 {
        self.disk.calls()
    }

    /// What a read of a file gives.
    pub fn file(&self, file: FileNo) -> &[u8] {
        self.disk.file(file)
    }
}

impl Disk for Untold {
    ghost use Rattle.std.specs.Prelude.{◌≡◌, None, ⊤};
    ghost use Rattle.std.proofs.lemmas.Option.{none-some};

    ghost seen = { λ d. None };

    ghost may_leave = { λ d c. ⊥ };

    ghost moment = { λ d. 0 };

    ghost left_since = { λ d t c. ⊥ };

    ghost faults = { λ d. d };

    ghost stays = { λ a b. ⊤ };

    fn len(&mut self, file: FileNo) -> Result<u64, DiskFault> {
        let done = if next_fails(&self.failing, &mut self.made) {
            Err(DiskFault)
        } else {
            self.disk.len(file)
        };
        counted(&mut self.faults, done)
    }

    fn read(&mut self, file: FileNo, at: u64, into: &mut [u8]) -> Result<(), DiskFault> {
        let fails = next_fails(&self.failing, &mut self.made);
        let done = if !fails && fits(&self.disk, file, at, into.len() as u64) {
            self.disk.read(file, at, into)
        } else {
            Err(DiskFault)
        };
        counted(&mut self.faults, done)
    }

    fn write_at(&mut self, file: FileNo, at: u64, piece: &[u8]) -> Result<(), DiskFault> {
        let fails = next_fails(&self.failing, &mut self.made);
        let done = if !fails && fits(&self.disk, file, at, 0) {
            self.disk.write_at(file, at, piece)
        } else {
            Err(DiskFault)
        };
        counted(&mut self.faults, done)
    }

    fn cut(&mut self, file: FileNo, to: u64) -> Result<(), DiskFault> {
        let fails = next_fails(&self.failing, &mut self.made);
        let done = if !fails && fits(&self.disk, file, to, 0) {
            self.disk.cut(file, to)
        } else {
            Err(DiskFault)
        };
        counted(&mut self.faults, done)
    }

    fn sync(&mut self, file: FileNo) -> Result<(), DiskFault> {
        let done = if next_fails(&self.failing, &mut self.made) {
            Err(DiskFault)
        } else {
            self.disk.sync(file)
        };
        counted(&mut self.faults, done)
    }

    ghost counts_now = { λ d t c le left. left };

    ghost only_now = { λ d c left. left };

    ghost seen_is_left = { λ d files is. none-some files is };

    ghost same = { λ d. tt };

    ghost joined = { λ a b c h k. tt };
}
