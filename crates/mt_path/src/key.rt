//! The key of a path: its components, each behind a byte 0, as one byte string.
ghost use Rattle.std.specs.Prelude.{◌≡◌, ◌==◌, ◌≤◌, ◌-◌, [], ◌∷◌, ◌++◌, drop, length, map, position, take, slice_index_or, IfOk, OnOk};
ghost use Rattle.std.specs.List.{position_or_len};
ghost use Rattle.mt_path.specs.Keys.{IsKey, key_bytes, parts_of, shown_byte};

use memchr::memrchr;
use mt_base::Bytes;
use std::alloc::{AllocError, Global};

/// The key of components.
pub(crate) fn key_of(alloc: Global, parts: &[Bytes]) -> Result<Vec<u8>, AllocError>
    ensures { IfOk result (λ v. v.items ≡ key_bytes parts.now) }
{
    let mut key = Vec::new(alloc);
    for part in parts {
        put_part(&mut key, part.as_slice())?;
    }
    Ok(key)
}

/// Adds a component at the end of a key.
pub(crate) fn put_part(key: &mut Vec<u8>, name: &[u8]) -> Result<(), AllocError>
    ensures { OnOk result (key.new.items ≡ key.old.items ++ 0 ∷ name.now) }
{
    key.push(0)?;
    key.extend_from_slice(name)
}

/// The first component of a key; no bytes where it has none.
pub fn first_part(key: &[u8]) -> &[u8]
    requires { IsKey key.now }
    ensures { result.now ≡ slice_index_or (parts_of key.now) 0 [] }
{
    match key {
        [] => key,
        [_, rest @ ..] => &rest[..part_len(rest)],
    }
}

/// The key of the components behind the first one.
pub fn behind_first(key: &[u8]) -> &[u8]
    requires { IsKey key.now }
    ensures parts { parts_of result.now ≡ drop 1 (parts_of key.now) }
    ensures key { IsKey result.now }
    ensures shorter { length result.now ≤ length key.now - 1 }
{
    match key {
        [] => key,
        [_, rest @ ..] => &rest[part_len(rest)..],
    }
}

// The number of bytes before the first byte 0.
fn part_len(rest: &[u8]) -> usize
    ensures value { result ≡ position_or_len (λ b. b == 0) rest.now }
    ensures within { result ≤ length rest.now }
{
    match zero_at(rest) {
        Some(end) => end,
        None => rest.len(),
    }
}

// The place of the first byte 0.
fn zero_at(bytes: &[u8]) -> Option<usize>
    ensures { result ≡ position (λ b. b == 0) bytes.now }
{
    bytes.iter().position(|b| *b == 0)
}

/// The key of the components behind the first ones, so many.
pub(crate) fn after(key: &[u8], count: usize) -> &[u8]
    requires { IsKey key.now }
    ensures value { result.now ≡ key_bytes (drop count (parts_of key.now)) }
    ensures key { IsKey result.now }
{
    if count == 0 || key.is_empty() {
        return key;
    }
    after(behind_first(key), count - 1)
}

/// The key of the first components, so many.
pub(crate) fn before(key: &[u8], count: usize) -> &[u8]
    requires { IsKey key.now }
    ensures { result.now ≡ key_bytes (take count (parts_of key.now)) }
{
    &key[..key.len() - after(key, count).len()]
}

/// The component at a place.
pub(crate) fn part_of(key: &[u8], k: usize) -> &[u8]
    requires { IsKey key.now }
    ensures { result.now ≡ slice_index_or (parts_of key.now) k [] }
{
    first_part(after(key, k))
}

/// The number of components.
pub(crate) fn part_count(key: &[u8]) -> usize
    ensures { result ≡ length (parts_of key.now) }
{
    key.split(|b| *b == 0).skip(1).count()
}

/// The key of the path one above; no bytes where the key has none.
pub(crate) fn parent_of(key: &[u8]) -> &[u8]
    requires { IsKey key.now }
    ensures { result.now ≡ key_bytes (take (length (parts_of key.now) - 1) (parts_of key.now)) }
{
    match memrchr(0, key) {
        Some(end) => &key[..end],
        None => key,
    }
}

/// Adds a key to a text, with a slash for each byte 0.
pub(crate) fn put_shown(text: &mut Vec<u8>, key: &[u8]) -> Result<(), AllocError>
    ensures { OnOk result (text.new.items ≡ text.old.items ++ map shown_byte key.now) }
{
    for b in key {
        text.push(shown_byte(*b))?;
    }
    Ok(())
}

// A byte of a key as it stands in a text.
fn shown_byte(b: u8) -> u8
    ensures { result ≡ shown_byte b }
{
    if b == 0 { b'/' } else { b }
}
