//! Bytes of a client that came before they were asked for.
ghost use Rattle.std.specs.Prelude.{◌≡◌, ◌≢◌, ℕ, ◌+◌, ◌<◌, ◌≤◌, length, get_or};

use crate::counted::copy_line;
use std::alloc::{AllocError, Global};
use std::io;
use std::io::Read;

/// How many bytes are read ahead at the most.
pub(crate) const MOST: usize = 65_536;

/// How many bytes an empty buffer keeps room for.
const LITTLE: usize = 4096;

// The bytes of `bytes` from `at` up to `end` have come and were not taken yet; behind them is room.
#[derive(Drop)]
pub(crate) struct Ahead {
    alloc: Global,
    bytes: Vec<u8>,
    at: usize,
    end: usize,
    ghost within: { (at ≤ end) × (end ≤ length bytes.items) },
}

impl Ahead {
    pub(crate) fn new(alloc: Global) -> Ahead {
        Ahead {
            alloc,
            bytes: Vec::new(alloc),
            at: 0,
            end: 0,
        }
    }

    // What has come.
    pub(crate) fn left(&self) -> &[u8] {
        &self.bytes[self.at..self.end]
    }

    pub(crate) fn is_empty(&self) -> bool {
        self.at == self.end
    }

    // Forgets what has come.
    pub(crate) fn clear(&mut self) {
        self.at = 0;
        self.end = 0;
    }

    // Gives back the memory of a buffer that is large and empty.
    pub(crate) fn shrink(&mut self) {
        if self.is_empty() && self.bytes.len() > LITTLE {
            *self = Ahead::new(self.alloc);
        }
    }

    // Makes room behind what has come: a little, or up to the most where the last read filled it.
    fn make_room(&mut self) -> Result<(), AllocError> {
        if self.is_empty() {
            self.clear();
        }
        if self.end < self.bytes.len() {
            return Ok(());
        }
        if self.at > 0 {
            self.bytes.copy_within(self.at..self.end, 0);
            self.end -= self.at;
            self.at = 0;
            return Ok(());
        }
        let size = if self.bytes.is_empty() { LITTLE } else { MOST };
        if size > self.bytes.len() {
            self.bytes.resize(size, 0)?;
        }
        Ok(())
    }

    // Reads once behind what has come, and tells how much came, and whether it filled the room. With no memory it has failed.
    pub(crate) fn read_more<R: Read>(&mut self, reader: &mut R) -> io::Result<(usize, bool)> {
        self.make_room()?;
        let room = self.bytes.len() - self.end;
        let count = reader.read(&mut self.bytes[self.end..])?;
        self.end += count;
        Ok((count, count == room))
    }

    // Takes as much as there is and fits.
    pub(crate) fn take(&mut self, into: &mut [u8]) -> usize
        ensures { result ≤ length into.new }
    {
        let count = (self.end - self.at).min(into.len());
        into[..count].copy_from_slice(&self.bytes[self.at..self.at + count]);
        self.at += count;
        count
    }

    // Takes as much of the first line as there is and fits.
    pub(crate) fn take_line(&mut self, into: &mut [u8]) -> usize
        ensures fits { result ≤ length into.new }
        ensures line { (k : ℕ) → k + 1 < result → get_or into.new k 0 ≢ 10 }
    {
        let count = copy_line(&self.bytes[self.at..self.end], into);
        self.at += count;
        count
    }
}
