//! What stands at paths, and what is sent of it.
ghost use Rattle.std.specs.Prelude.{◌≡◌, IfOk, length};

use crate::commands::path_at;
use crate::jobs::{put_job, put_room};
use md5::{Digest, Md5};
use mt_body::Sent;
use mt_disk::DiskFault;
use mt_edge::MemSink;
use mt_engine::Engine;
use mt_rows::{Row, Stop, put_escaped};
use mt_tree::{Entry, Tree};
use mt_types::{Body, Object, Path};
use mt_untold::Untold;
use std::alloc::{AllocError, Global};

/// The most bytes of a part and of a sink.
const MOST: u64 = 200_000;

/// More rows than a directory of this table has.
const ALL: usize = 1_000;

/// Appends how many bytes, and their digest.
pub fn put_bytes(out: &mut String, bytes: &[u8]) -> Result<(), AllocError> {
    write!(out, "{} bytes ", bytes.len())?;
    put_digest(out, &Md5::digest(bytes))
}

/// Appends a digest.
pub fn put_digest(out: &mut String, digest: &[u8; 16]) -> Result<(), AllocError> {
    for byte in digest {
        write!(out, "{byte:02x}")?;
    }
    Ok(())
}

// The directory `/l/stor`.
fn stor(alloc: Global) -> Result<Path, Stop> {
    match Path::plain(alloc, "l", b"/l/stor") {
        Ok(dir) => Ok(dir),
        Err(_) => Err(Stop::NoSuchRow),
    }
}

// An object's name and number, or a directory's name with a slash and its moment.
fn put_listed(name: &[u8], entry: &Entry<Body>, out: &mut String) -> Result<(), AllocError> {
    put_escaped(out, name)?;
    match entry {
        Entry::Directory { mtime } => write!(out, "/ {mtime}"),
        Entry::Object(object) => write!(out, " {}", object.number),
    }
}

/// Appends what stands below `/l/stor`: each object's name and number, and each directory's name with a slash and its moment.
pub fn put_rows(alloc: Global, tree: &Tree<Body>, out: &mut String) -> Result<(), Stop> {
    let dir = stor(alloc)?;
    let page = tree.page(alloc, &dir, b"", ALL)?;
    let mut between = "";
    for listed in &page {
        out.push_str(between)?;
        put_listed(listed.name, listed.entry, out)?;
        between = ", ";
    }
    Ok(())
}

// The object at the path that a row names.
fn object_at<'a>(alloc: Global, engine: &'a Engine, row: &Row) -> Result<&'a Object<Body>, Stop> {
    match engine.tree().get(&path_at(alloc, row, 1)?) {
        Some(Entry::Object(object)) => Ok(object),
        _ => Err(Stop::NoSuchRow),
    }
}

// `at PATH`
fn put_entry(alloc: Global, engine: &Engine, row: &Row, out: &mut String) -> Result<(), Stop> {
    match engine.tree().get(&path_at(alloc, row, 1)?) {
        Some(Entry::Directory { mtime }) => Ok(write!(out, "directory, moment {mtime}")?),
        Some(Entry::Object(object)) => Ok(put_object(object, out)?),
        None => Ok(out.push_str("nothing")?),
    }
}

fn put_object(object: &Object<Body>, out: &mut String) -> Result<(), AllocError> {
    let body = &object.body;
    write!(
        out,
        "object {}, moment {}, {} bytes at {}",
        object.number, object.mtime, body.len, body.first
    )
}

// So many zeros.
fn zeros(alloc: Global, len: usize) -> Result<Vec<u8>, AllocError>
    ensures { IfOk result (λ bytes. length bytes.items ≡ len) }
{
    let mut bytes = Vec::with_capacity(alloc, len)?;
    bytes.resize(len, 0)?;
    Ok(bytes)
}

// Sends that part of a body to a sink.
fn sent(
    alloc: Global,
    disk: &mut Untold,
    engine: &Engine,
    sink: &mut MemSink,
    body: &Body,
    from: u64,
    to: u64,
) -> Result<Sent, Stop> {
    if engine.is_closed() || from > to || to > body.len || to > MOST {
        return Err(Stop::NoSuchRow);
    }
    let mut buffer = zeros(alloc, 65_536)?;
    Ok(engine.send_body(disk, sink, body, from, to, buffer.as_mut_slice()))
}

// How far it was sent, and what the sink has.
fn put_written(sent: Sent, written: &[u8], out: &mut String) -> Result<(), AllocError> {
    write!(out, "{sent:?} ")?;
    put_bytes(out, written)
}

// `send PATH FROM TO`: that part of the object's body to a sink.
fn put_sent(
    alloc: Global,
    disk: &mut Untold,
    engine: &Engine,
    row: &Row,
    out: &mut String,
) -> Result<(), Stop> {
    let from = row.number(2)?;
    let to = row.number(3)?;
    let body = &object_at(alloc, engine, row)?.body;
    let mut sink = MemSink::new(alloc, MOST as usize)?;
    let sent = sent(alloc, disk, engine, &mut sink, body, from, to)?;
    Ok(put_written(sent, sink.written(), out)?)
}

// Whether it was read, and its bytes.
fn put_read(done: Result<(), DiskFault>, part: &[u8], out: &mut String) -> Result<(), AllocError> {
    write!(out, "{done:?} ")?;
    put_bytes(out, part)
}

// `part PATH AT COUNT`: that part of the object's body into a slice.
fn put_part(
    alloc: Global,
    disk: &mut Untold,
    engine: &Engine,
    row: &Row,
    out: &mut String,
) -> Result<(), Stop> {
    let at = row.number(2)?;
    let count = row.number(3)?;
    let body = &object_at(alloc, engine, row)?.body;
    if engine.is_closed() || count > MOST || at > body.len || count > body.len - at {
        return Err(Stop::NoSuchRow);
    }
    let mut part = zeros(alloc, count as usize)?;
    let done = engine.read_body(disk, body, at, part.as_mut_slice());
    Ok(put_read(done, &part, out)?)
}

/// Answers a row of this module.
pub fn answer(
    alloc: Global,
    disk: &mut Untold,
    engine: &Engine,
    row: &Row,
    out: &mut String,
) -> Result<(), Stop> {
    match row.text(0)? {
        "at" => put_entry(alloc, engine, row, out),
        "rows" => put_rows(alloc, engine.tree(), out),
        "job" => put_job(engine, row, out),
        "room" => put_room(alloc, engine, row, out),
        "send" => put_sent(alloc, disk, engine, row, out),
        "part" => put_part(alloc, disk, engine, row, out),
        _ => Err(Stop::NoSuchRow),
    }
}
