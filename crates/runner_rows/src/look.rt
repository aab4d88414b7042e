//! What stands in an account.
use md5::{Digest, Md5};
use mt_base::zeros;
use mt_engine::Engine;
use mt_rows::{Row, Stop, put_escaped};
use mt_tree::Entry;
use mt_types::{Body, Outcome, Path, TraceEntry};
use mt_untold::Untold;
use std::alloc::{AllocError, Global};

/// The most bytes of an object that is read.
const MOST: u64 = 16_777_216;

/// Objects of more bytes are shown by their digest.
const MOST_SHOWN: usize = 1_000;

/// Appends where an engine is.
pub fn put_place(engine: &Engine, out: &mut String) -> Result<(), Stop> {
    if engine.is_closed() {
        return Ok(out.push_str("closed")?);
    }
    write!(out, "log {}, position {}", engine.used(), engine.position())?;
    Ok(())
}

// Bytes as a table shows them, and `\e` for none.
fn put_some(out: &mut String, bytes: &[u8]) -> Result<(), AllocError> {
    if bytes.is_empty() {
        return out.push_str("\\e");
    }
    put_escaped(out, bytes)
}

// How many bytes, and they, or their digest.
fn put_bytes(out: &mut String, bytes: &[u8]) -> Result<(), AllocError> {
    write!(out, "{} bytes ", bytes.len())?;
    if bytes.len() <= MOST_SHOWN {
        return put_some(out, bytes);
    }
    for byte in Md5::digest(bytes) {
        write!(out, "{byte:02x}")?;
    }
    Ok(())
}

// The body of the object at the path of a row.
fn body_at<'a>(alloc: Global, engine: &'a Engine, row: &Row) -> Result<&'a Body, Stop> {
    let Ok(path) = Path::plain(alloc, "l", row.bytes(1)?) else {
        return Err(Stop::NoSuchRow);
    };
    match engine.tree().get(&path) {
        Some(Entry::Object(object)) => Ok(&object.body),
        _ => Err(Stop::NoSuchRow),
    }
}

/// `object PATH`: the bytes of an object.
pub fn put_object(
    alloc: Global,
    disk: &mut Untold,
    engine: &Engine,
    row: &Row,
    out: &mut String,
) -> Result<(), Stop> {
    let body = body_at(alloc, engine, row)?;
    if engine.is_closed() || body.len > MOST {
        return Err(Stop::NoSuchRow);
    }
    let mut bytes = zeros(alloc, body.len as usize)?;
    match engine.read_body(disk, body, 0, bytes.as_mut_slice()) {
        Ok(()) => Ok(put_bytes(out, &bytes)?),
        Err(_) => Err(Stop::NoSuchRow),
    }
}

// A committed task: where it stands, and how many outputs it has, or why it failed.
fn put_entry(entry: &TraceEntry<Body>, out: &mut String) -> Result<(), AllocError> {
    write!(
        out,
        "\n    phase {} place {} at {}: ",
        entry.phase, entry.place, entry.position
    )?;
    match &entry.outcome {
        Outcome::Good(items) => write!(out, "outputs {}", items.len()),
        Outcome::Bad {
            failure,
            status,
            stderr,
        } => {
            write!(out, "{failure:?} {status} ")?;
            put_some(out, stderr.as_slice())
        }
    }
}

/// `tasks NUMBER`: the committed tasks of a job.
pub fn put_tasks(engine: &Engine, row: &Row, out: &mut String) -> Result<(), Stop> {
    let Some(job) = engine.jobs().get(row.number(1)?) else {
        return Err(Stop::NoSuchRow);
    };
    for entry in job.trace.as_slice() {
        put_entry(entry, out)?;
    }
    Ok(())
}
