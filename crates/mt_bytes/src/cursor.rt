//! Numbers and pieces, read from the front of bytes.
ghost use Rattle.std.specs.Prelude.{◌≡◌, ◌<◌, ◌↔◌, [], ◌∷◌, ◌++◌, length, IsTrue, IsErr, IfOk, OnErr};
ghost use Rattle.mt_base.specs.Numbers.{big_endian_16, big_endian_32, big_endian_64};

use std::marker::Model;

/// Fewer bytes are left than a reader needs.
#[derive(Clone, Copy, Debug, PartialEq, Eq)]
pub struct Short;

/// Bytes that are read from the front, which contracts see as those that are left. No call takes memory.
#[derive(Debug, Drop)]
pub struct Cursor<'a> {
    left: &'a [u8],
}

impl<'a> Model for Cursor<'a> {
    ghost use Rattle.std.specs.Prelude.{List, ℕ};

    ghost Value = { List ℕ };

    ghost view = { λ c. c.left.now };
}

impl<'a> Cursor<'a> {
    /// All of the bytes are left.
    pub fn new(bytes: &'a [u8]) -> Cursor<'a>
        ensures { result ≡ bytes.now }
    {
        Cursor { left: bytes }
    }

    /// The next byte. [`Short`] exactly where none is left.
    pub fn u8(&mut self) -> Result<u8, Short>
        ensures value { IfOk result (λ n. self.old ≡ n ∷ self.new) }
        ensures short { IsErr result ↔ (length self.old < 1) }
        ensures stays { OnErr result (self.new ≡ self.old) }
    {
        match self.left.split_first() {
            Some((byte, rest)) => {
                self.left = rest;
                Ok(*byte)
            }
            None => Err(Short),
        }
    }

    /// The number of the next two bytes, the higher first. [`Short`] exactly where fewer are left.
    pub fn u16(&mut self) -> Result<u16, Short>
        ensures value { IfOk result (λ n. self.old ≡ big_endian_16 n ++ self.new) }
        ensures short { IsErr result ↔ (length self.old < 2) }
        ensures stays { OnErr result (self.new ≡ self.old) }
    {
        match self.left.split_first_chunk::<2>() {
            Some((bytes, rest)) => {
                self.left = rest;
                Ok(from_two(bytes))
            }
            None => Err(Short),
        }
    }

    /// The number of the next four bytes, the highest first. [`Short`] exactly where fewer are left.
    pub fn u32(&mut self) -> Result<u32, Short>
        ensures value { IfOk result (λ n. self.old ≡ big_endian_32 n ++ self.new) }
        ensures short { IsErr result ↔ (length self.old < 4) }
        ensures stays { OnErr result (self.new ≡ self.old) }
    {
        match self.left.split_first_chunk::<4>() {
            Some((bytes, rest)) => {
                self.left = rest;
                Ok(from_four(bytes))
            }
            None => Err(Short),
        }
    }

    /// The number of the next eight bytes, the highest first. [`Short`] exactly where fewer are left.
    pub fn u64(&mut self) -> Result<u64, Short>
        ensures value { IfOk result (λ n. self.old ≡ big_endian_64 n ++ self.new) }
        ensures short { IsErr result ↔ (length self.old < 8) }
        ensures stays { OnErr result (self.new ≡ self.old) }
    {
        match self.left.split_first_chunk::<8>() {
            Some((bytes, rest)) => {
                self.left = rest;
                Ok(from_eight(bytes))
            }
            None => Err(Short),
        }
    }

    /// The next n bytes. [`Short`] exactly where fewer are left.
    pub fn bytes(&mut self, n: usize) -> Result<&'a [u8], Short>
        ensures value { IfOk result (λ piece. (self.old ≡ piece.now ++ self.new) × (length piece.now ≡ n)) }
        ensures short { IsErr result ↔ (length self.old < n) }
        ensures stays { OnErr result (self.new ≡ self.old) }
    {
        if self.left.len() < n {
            return Err(Short);
        }
        let (piece, rest) = self.left.split_at(n);
        self.left = rest;
        Ok(piece)
    }

    /// The bytes that are left. The cursor stays.
    pub fn left(&self) -> &'a [u8]
        ensures { result.now ≡ self.now }
    {
        self.left
    }

    /// Whether no byte is left.
    pub fn at_end(&self) -> bool
        ensures { IsTrue result ↔ (self.now ≡ []) }
    {
        self.left.is_empty()
    }
}

// The number of two bytes.
fn from_two(bytes: &[u8; 2]) -> u16
    ensures { big_endian_16 result ≡ bytes.now }
{
    u16::from_be_bytes(*bytes)
}

// The number of four bytes.
fn from_four(bytes: &[u8; 4]) -> u32
    ensures { big_endian_32 result ≡ bytes.now }
{
    u32::from_be_bytes(*bytes)
}

// The number of eight bytes.
fn from_eight(bytes: &[u8; 8]) -> u64
    ensures { big_endian_64 result ≡ bytes.now }
{
    u64::from_be_bytes(*bytes)
}
