//! The calls of `mt_path` at keys, and the paths that are made in place of others.
ghost use Rattle.std.specs.Prelude.{◌≡◌, IfOk};

use crate::conditions;
use crate::paths::{path_at, put_path};
use mt_path::{Bytes, Path, behind_first, first_part};
use mt_rows::{Row, Stop, put_escaped};
use std::alloc::{AllocError, Global};

/// Answers a row of this module, or else of the next.
pub fn answer(alloc: Global, row: &Row, out: &mut String) -> Result<(), Stop> {
    match row.text(0)? {
        "key" => put_key(alloc, row, out),
        "parent-key" => put_parent_key(alloc, row, out),
        "from-key" => put_from_key(alloc, row, out),
        "first-part" => put_first(alloc, row, out),
        "behind-first" => put_behind(alloc, row, out),
        "front" => put_front(alloc, row, out),
        "extended" => put_extended(alloc, row, out),
        _ => conditions::answer(alloc, row, out),
    }
}

// The number of bytes, and the bytes, where there are any.
fn put_bytes(out: &mut String, bytes: &[u8]) -> Result<(), Stop> {
    write!(out, "{}", bytes.len())?;
    if bytes.is_empty() {
        return Ok(());
    }
    out.push(' ')?;
    Ok(put_escaped(out, bytes)?)
}

fn put_key(alloc: Global, row: &Row, out: &mut String) -> Result<(), Stop> {
    let path = path_at(alloc, row, 1)?;
    put_bytes(out, path.key())
}

fn put_parent_key(alloc: Global, row: &Row, out: &mut String) -> Result<(), Stop> {
    let path = path_at(alloc, row, 1)?;
    put_bytes(out, path.parent_key())
}

fn put_first(alloc: Global, row: &Row, out: &mut String) -> Result<(), Stop> {
    let path = path_at(alloc, row, 1)?;
    put_bytes(out, first_part(path.key()))
}

fn put_behind(alloc: Global, row: &Row, out: &mut String) -> Result<(), Stop> {
    let path = path_at(alloc, row, 1)?;
    put_bytes(out, behind_first(path.key()))
}

// The path of the area and the key of a path.
fn of_same_key(alloc: Global, path: &Path) -> Result<Path, AllocError>
    ensures { IfOk result (λ p. p ≡ path.now) }
{
    let key = Vec::from_slice(alloc, path.key())?;
    Ok(Path::from_key(path.area(), key))
}

fn put_from_key(alloc: Global, row: &Row, out: &mut String) -> Result<(), Stop> {
    let path = path_at(alloc, row, 1)?;
    put_path(alloc, Ok(of_same_key(alloc, &path)?), out)
}

fn put_front(alloc: Global, row: &Row, out: &mut String) -> Result<(), Stop> {
    let count = row.number(2)?.min(usize::MAX as u64);
    let path = path_at(alloc, row, 1)?;
    put_path(alloc, Ok(path.front(alloc, count as usize)?), out)
}

fn put_extended(alloc: Global, row: &Row, out: &mut String) -> Result<(), Stop> {
    let name = row.bytes(2)?;
    let path = path_at(alloc, row, 1)?;
    put_path(alloc, path.extended(name), out)
}

/// The components of a path.
pub fn parts_of(alloc: Global, path: &Path) -> Result<Vec<Bytes>, AllocError>
    ensures { IfOk result (λ v. v.items ≡ path.now.parts) }
{
    let mut parts = Vec::new(alloc);
    for k in 0..path.len() {
        parts.push(Bytes::from_slice(alloc, path.part(k))?)?;
    }
    Ok(parts)
}

/// The path of the area of a path and of its components.
pub fn of_same_parts(alloc: Global, path: &Path, parts: &[Bytes]) -> Result<Path, AllocError>
    requires { parts.now ≡ path.now.parts }
    ensures { IfOk result (λ p. p ≡ path.now) }
{
    let _key = path.key();
    Path::from_parts(alloc, path.area(), parts)
}
