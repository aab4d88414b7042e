//! A part of a text that is written piece by piece.
ghost use Rattle.std.specs.Prelude.{◌≡◌, length, map};
ghost use Rattle.mt_path.specs.Keys.{shown_byte};

use mt_base::Bytes;
use std::alloc::{AllocError, Global};
use std::marker::Model;

/// A place for a part of a text: bytes in front of it are passed over, and those behind it are dropped. No write takes memory.
#[derive(Drop)]
pub(crate) struct Window {
    skip: u64,
    filled: usize,
    limit: usize,
    bytes: Vec<u8>,
}

impl Model for Window {
    ghost use Rattle.std.specs.Prelude.{◌-◌, ◌≤◌, length, take};
    ghost use Rattle.mt_jobtext.specs.Windows.{Seen};

    ghost Value = { Seen };

    ghost view = { λ w. record { skip = w.skip; got = take w.filled w.bytes.items; room = w.limit - w.filled; size = length w.bytes.items } };

    ghost invariant = { λ w. (w.filled ≤ w.limit) × (w.limit ≤ length w.bytes.items) };
}

impl Window {
    ghost use Rattle.std.specs.Prelude.{◌≡◌, ◌≤◌, ◌-◌, ◌==◌, ◌++◌, [], length, map, min, nat_le, IfOk};
    ghost use Rattle.mt_path.specs.Keys.{shown_byte};
    ghost use Rattle.mt_jobtext.specs.Windows.{Puts};

    /// A window of no bytes, which passes over all that it can count. It takes no memory.
    pub(crate) fn counting(alloc: Global) -> Window
        ensures { result ≡ record { skip = u64.MAX; got = []; room = 0; size = 0 } }
    {
        Window {
            skip: u64::MAX,
            filled: 0,
            limit: 0,
            bytes: Vec::new(alloc),
        }
    }

    /// A window of so many bytes at the front of a text.
    pub(crate) fn of(alloc: Global, len: usize) -> Result<Window, AllocError>
        ensures { IfOk result (λ w. w ≡ record { skip = 0; got = []; room = len; size = len }) }
    {
        let mut bytes = Vec::with_capacity(alloc, len)?;
        bytes.resize(len, 0)?;
        Ok(Window {
            skip: 0,
            filled: 0,
            limit: len,
            bytes,
        })
    }

    /// The same window before a text is written, behind `skip` bytes of it and for `most` bytes, or as many as it has.
    pub(crate) fn begin(&mut self, skip: u64, most: usize)
        ensures { self.new ≡ record { skip = skip; got = []; room = min self.old.size most; size = self.old.size } }
    {
        self.skip = skip;
        self.filled = 0;
        self.limit = self.bytes.len().min(most);
    }

    /// Adds bytes to the text.
    #[inline(always)]
    pub(crate) fn put(&mut self, bytes: &[u8])
        ensures { Puts bytes.now self.old self.new }
    {
        if self.skip == 0 && bytes.len() <= self.limit - self.filled {
            self.write(bytes);
        } else {
            self.put_part(bytes);
        }
    }

    // The same, where some of them may stand in front of it or behind it.
    #[inline(never)]
    fn put_part(&mut self, bytes: &[u8])
        ensures { Puts bytes.now self.old self.new }
    {
        let passed = (bytes.len() as u64).min(self.skip);
        self.skip -= passed;
        let rest = &bytes[passed as usize..];
        let count = rest.len().min(self.limit - self.filled);
        self.write(&rest[..count]);
    }

    /// Adds a key to the text, with a slash for each byte 0.
    pub(crate) fn put_shown(&mut self, key: &[u8])
        ensures { Puts (map shown_byte key.now) self.old self.new }
    {
        let passed = (key.len() as u64).min(self.skip);
        self.skip -= passed;
        let rest = &key[passed as usize..];
        let count = rest.len().min(self.limit - self.filled);
        self.write_shown(&rest[..count]);
    }

    // Writes bytes behind those in it.
    #[inline(always)]
    fn write(&mut self, bytes: &[u8])
        requires { length bytes.now ≤ self.old.room }
        ensures { self.new ≡ record self.old { got = self.old.got ++ bytes.now; room = self.old.room - length bytes.now } }
    {
        let end = self.filled + bytes.len();
        self.bytes[self.filled..end].copy_from_slice(bytes);
        self.filled = end;
    }

    // Writes a key behind them, with a slash for each byte 0.
    #[inline(always)]
    fn write_shown(&mut self, key: &[u8])
        requires { length key.now ≤ self.old.room }
        ensures { self.new ≡ record self.old { got = self.old.got ++ map shown_byte key.now; room = self.old.room - length key.now } }
    {
        let end = self.filled + key.len();
        copy_shown(&mut self.bytes[self.filled..end], key);
        self.filled = end;
    }

    /// Whether so many bytes of the text are passed over whole.
    pub(crate) fn passes(&self, count: usize) -> bool
        ensures { result ≡ nat_le count self.now.skip }
    {
        count as u64 <= self.skip
    }

    /// Passes over so many bytes of the text.
    pub(crate) fn pass(&mut self, count: usize)
        requires { count ≤ self.old.skip }
        ensures { self.new ≡ record self.old { skip = self.old.skip - count } }
    {
        self.skip -= count as u64;
    }

    /// How many bytes are still to be passed over.
    pub(crate) fn skip(&self) -> u64
        ensures { result ≡ self.now.skip }
    {
        self.skip
    }

    /// How many more bytes it takes.
    pub(crate) fn room(&self) -> usize
        ensures { result ≡ self.now.room }
    {
        self.limit - self.filled
    }

    /// Whether it takes no more bytes.
    pub(crate) fn is_full(&self) -> bool
        ensures { result ≡ (self.now.room == 0) }
    {
        self.filled == self.limit
    }

    /// The bytes in it.
    pub(crate) fn got(&self) -> &[u8]
        ensures { result.now ≡ self.now.got }
    {
        &self.bytes[..self.filled]
    }

    /// The bytes in it, without taking memory.
    pub(crate) fn into_bytes(self) -> Bytes
        ensures { result ≡ self.got }
    {
        let Window {
            filled,
            mut bytes,
            ..
        } = self;
        bytes.truncate(filled);
        Bytes::from_vec(bytes)
    }
}

// Writes a key, with a slash for each byte 0.
fn copy_shown(into: &mut [u8], key: &[u8])
    requires { length into.old ≡ length key.now }
    ensures { into.new ≡ map shown_byte key.now }
{
    for k in 0..key.len() {
        into[k] = shown_byte(key[k]);
    }
}

/// A byte of a key as it stands in a text.
#[inline(always)]
pub(crate) fn shown_byte(b: u8) -> u8
    ensures { result ≡ shown_byte b }
{
    if b == 0 { b'/' } else { b }
}
