//! A spool in memory.
ghost use Rattle.std.specs.Prelude.{◌≡◌, false, None, IfSome};
ghost use Rattle.mt_spawn.specs.Spools.{has_file};
ghost use Rattle.mt_spawn.specs.SpoolMemory.{IsFirst, files_of};

use crate::{Spool, SpoolFault, SpoolStep};
use std::alloc::Global;

/// A file in memory.
#[derive(Drop)]
pub struct MemFile {
    /// Its number.
    pub number: u32,
    /// Its bytes.
    pub bytes: Vec<u8>,
}

/// Files in memory, with room for so many bytes. The calls that were given fail, counted from 0. One that wants memory fails too.
#[derive(Drop)]
pub struct MemSpool {
    files: Vec<MemFile>,
    alloc: Global,
    room: usize,
    calls: u64,
    failing: Vec<u64>,
    faults: u64,
}

impl MemSpool {
    ghost use Rattle.std.specs.Prelude.{◌≡◌, [], true, false};
    ghost use Rattle.mt_base.specs.Counts.{Rose};
    ghost use Rattle.mt_spawn.specs.Spools.{has_file, with_bytes};
    ghost use Rattle.mt_spawn.specs.SpoolMemory.{IsFirst, files_of};

    /// No file, and room for so many bytes in all.
    pub fn new(alloc: Global, room: usize) -> MemSpool
        ensures { result.files.items ≡ [] }
    {
        MemSpool {
            files: Vec::new(alloc),
            alloc,
            room,
            calls: 0,
            failing: Vec::new(alloc),
            faults: 0,
        }
    }

    /// The same spool, of which the calls of these numbers fail.
    pub fn failing(mut self, calls: Vec<u64>) -> MemSpool
        ensures { result.files.items ≡ self.files.items }
    {
        self.failing = calls;
        self
    }

    /// The files, in the order in which they were made.
    pub fn files(&self) -> &[MemFile]
        ensures { result.now ≡ self.now.files.items }
    {
        self.files.as_slice()
    }

    /// Whether a file of a number is there.
    pub fn has(&self, number: u32) -> bool
        ensures { result ≡ has_file number (files_of self.now.files.items) }
    {
        match place_of(self.files.as_slice(), number) {
            Some(_place) => true,
            None => false,
        }
    }

    /// How many calls have failed.
    pub fn faults(&self) -> u64
        ensures { result ≡ self.now.faults }
    {
        self.faults
    }

    // Counts a fault.
    fn fault(&mut self) -> SpoolFault
        ensures files { self.new.files.items ≡ self.old.files.items }
        ensures faults { Rose self.old.faults self.new.faults }
    {
        self.faults = self.faults.saturating_add(1);
        SpoolFault
    }

    // Adds bytes to the first file of a number, which stands at a place; whether there was memory.
    fn add_at(&mut self, number: u32, place: usize, piece: &[u8]) -> bool
        requires { IsFirst number self.old.files.items place }
        ensures added { result ≡ true → files_of self.new.files.items ≡ with_bytes number piece.now (files_of self.old.files.items) }
        ensures not { result ≡ false → files_of self.new.files.items ≡ files_of self.old.files.items }
        ensures faults { self.new.faults ≡ self.old.faults }
    {
        let file = &mut self.files[place];
        file.bytes.extend_from_slice(piece).is_ok()
    }

    // Counts a call, and tells whether it is to fail.
    fn begin(&mut self) -> bool
        ensures files { self.new.files.items ≡ self.old.files.items }
        ensures faults { self.new.faults ≡ self.old.faults }
        ensures room { self.new.room ≡ self.old.room }
    {
        let fails = self.failing.contains(&self.calls);
        self.calls = self.calls.saturating_add(1);
        fails
    }
}

// The place of the file of a number.
fn place_of(files: &[MemFile], number: u32) -> Option<usize>
    ensures there { IfSome result (λ k. IsFirst number files.now k) }
    ensures absent { result ≡ None → has_file number (files_of files.now) ≡ false }
{
    for place in 0..files.len() {
        if files[place].number == number {
            return Some(place);
        }
    }
    None
}

// How many bytes may still be written.
fn room_left(files: &[MemFile], room: usize) -> usize {
    let mut left = room;
    for file in files {
        left = left.saturating_sub(file.bytes.len());
    }
    left
}

impl Spool for MemSpool {
    ghost use Rattle.std.specs.Prelude.{Some};
    ghost use Rattle.mt_spawn.specs.SpoolMemory.{files_of};

    ghost files = { λ s. Some (files_of s.files.items) };

    ghost faults = { λ s. s.faults };

    fn create_new(&mut self, number: u32) -> SpoolStep {
        if self.begin() {
            self.fault();
            return SpoolStep::Failed;
        }
        if let Some(_place) = place_of(self.files.as_slice(), number) {
            return SpoolStep::Taken;
        }
        let bytes = Vec::new(self.alloc);
        match self.files.push(MemFile { number, bytes }) {
            Ok(()) => SpoolStep::Done,
            Err(_) => {
                self.fault();
                SpoolStep::Failed
            }
        }
    }

    fn append(&mut self, number: u32, piece: &[u8]) -> Result<(), SpoolFault> {
        if self.begin() {
            return Err(self.fault());
        }
        let left = room_left(self.files.as_slice(), self.room);
        let Some(place) = place_of(self.files.as_slice(), number) else {
            return Err(self.fault());
        };
        if piece.len() <= left {
            return match self.add_at(number, place, piece) {
                true => Ok(()),
                false => Err(self.fault()),
            };
        }
        match self.add_at(number, place, &piece[..left]) {
            true => Err(self.fault()),
            false => Err(self.fault()),
        }
    }
}
