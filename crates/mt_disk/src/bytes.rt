//! What one file's bytes undergo.
ghost use Rattle.std.specs.Prelude.{◌≡◌, ◌≤◌, ◌+◌, length, vec_capacity, IfOk, OnOk};
ghost use Rattle.mt_disk.specs.Files.{overwritten};
ghost use Rattle.mt_disk.specs.CrashModel.{Torn};
ghost use Rattle.mt_disk.specs.MemState.{padded};

use crate::crash::Pick;
use std::alloc::{AllocError, Global};

/// A copy with room for so many bytes.
pub(crate) fn with_room(alloc: Global, bytes: &[u8], room: usize) -> Result<Vec<u8>, AllocError>
    ensures bytes { IfOk result (λ v. v.items ≡ bytes.now) }
    ensures room { IfOk result (λ v. room ≤ vec_capacity v) }
{
    let mut copy = Vec::with_capacity(alloc, room)?;
    copy.extend_from_slice(bytes)?;
    Ok(copy)
}

/// Writes a piece over what is there, and past the end.
pub(crate) fn overwrite(bytes: &mut Vec<u8>, at: usize, piece: &[u8])
    requires { at + length piece.now ≤ vec_capacity bytes.old }
    ensures after { bytes.new.items ≡ overwritten bytes.old.items at piece.now }
    ensures room { vec_capacity bytes.old ≤ vec_capacity bytes.new }
{
    let at = at.min(bytes.len());
    let over = piece.len().min(bytes.len() - at);
    match bytes.extend_from_slice(&piece[over..]) {
        Ok(()) => bytes[at..at + over].copy_from_slice(&piece[..over]),
        Err(_) => unreachable!(),
    }
}

// Fills up with zeros to a length.
fn pad(bytes: &mut Vec<u8>, to: usize)
    requires { to ≤ vec_capacity bytes.old }
    ensures after { bytes.new.items ≡ padded bytes.old.items to }
    ensures room { vec_capacity bytes.old ≤ vec_capacity bytes.new }
{
    if bytes.len() < to {
        match bytes.resize(to, 0) {
            Ok(()) => {}
            Err(_) => unreachable!(),
        }
    }
}

// Puts a byte at each place of a range.
fn fill(bytes: &mut Vec<u8>, at: usize, len: usize, byte: u8)
    requires { at + len ≤ vec_capacity bytes.old }
    ensures torn { Torn at len bytes.old.items bytes.new.items }
    ensures room { vec_capacity bytes.old ≤ vec_capacity bytes.new }
{
    pad(bytes, at);
    for place in at..at + len {
        overwrite(bytes, place, &[byte]);
    }
}

// Puts the front of a piece at a place.
fn put(bytes: &mut Vec<u8>, at: usize, piece: &[u8], len: usize)
    requires len { len ≤ length piece.now }
    requires room { at + length piece.now ≤ vec_capacity bytes.old }
    ensures torn { Torn at (length piece.now) bytes.old.items bytes.new.items }
    ensures room { vec_capacity bytes.old ≤ vec_capacity bytes.new }
{
    pad(bytes, at);
    overwrite(bytes, at, &piece[..len]);
}

/// Leaves a part of a write, and zeros between the old end and its place.
pub(crate) fn tear(bytes: &mut Vec<u8>, at: usize, piece: &[u8], pick: Pick)
    requires { at + length piece.now ≤ vec_capacity bytes.old }
    ensures torn { Torn at (length piece.now) bytes.old.items bytes.new.items }
    ensures room { vec_capacity bytes.old ≤ vec_capacity bytes.new }
{
    match pick {
        Pick::Nothing => {}
        Pick::Zeros => fill(bytes, at, piece.len(), 0),
        Pick::Ones => fill(bytes, at, piece.len(), 1),
        Pick::Half => put(bytes, at, piece, piece.len() / 2),
        Pick::Whole => put(bytes, at, piece, piece.len()),
    }
}

/// Holds a copy of these bytes in place of what is there.
pub(crate) fn replace(bytes: &mut Vec<u8>, by: &[u8]) -> Result<(), AllocError>
    ensures after { OnOk result (bytes.new.items ≡ by.now) }
    ensures room { vec_capacity bytes.old ≤ vec_capacity bytes.new }
{
    bytes.clear();
    bytes.extend_from_slice(by)
}
