//! Sessions over a log in which a call of the disk fails, and what a crash leaves of them.
use crate::disks::put_bytes;
use crate::logs::{append, put_payloads, put_refusal, run};
use mt_disk::{CrashError, FileNo, Pick};
use mt_log::Log;
use mt_rows::{Row, Stop};
use mt_untold::Untold;
use std::alloc::Global;

/// How long a log may get in such a session.
const LIMIT: u64 = 200;

// The log of a disk, of which it prints the length, or why it isn't opened.
fn opened(alloc: Global, disk: &mut Untold, out: &mut String) -> Result<Option<Log>, Stop> {
    match Log::open(alloc, disk, LIMIT) {
        Ok(log) => {
            write!(out, "Ok({})", log.len())?;
            Ok(Some(log))
        }
        Err(error) => {
            put_refusal(out, error)?;
            Ok(None)
        }
    }
}

// Each payload of a step that the log says it has, behind a blank.
fn put_told(
    alloc: Global,
    disk: &mut Untold,
    log: &mut Log,
    step: &Row,
    out: &mut String,
) -> Result<(), Stop> {
    let is_told = match step.text(0)? {
        "append" => append(disk, log, step.bytes(1)?)?.is_ok(),
        "run" => run(alloc, disk, log, step)?.end.is_ok(),
        _ => return Err(Stop::NoSuchRow),
    };
    if is_told {
        put_words(out, step)?;
    }
    Ok(())
}

fn put_words(out: &mut String, row: &Row) -> Result<(), Stop> {
    for place in 1..row.len() {
        out.push(' ')?;
        put_bytes(out, row.bytes(place)?)?;
    }
    Ok(())
}

/// A session over a disk: the log is opened and does each step, a crash leaves what the picks say, and the log is
/// opened again. Prints both openings, the payloads that were told and those that were left, and Head.
pub fn put_stop(
    alloc: Global,
    disk: Untold,
    steps: &[Row],
    picks: &[Pick],
    out: &mut String,
) -> Result<(), Stop> {
    let disk = put_session(alloc, disk, steps, out)?;
    match crashed(alloc, disk, picks)? {
        Some(left) => put_left(alloc, left, out),
        None => Ok(out.push_str("; no image")?),
    }
}

/// What a crash leaves, where it is an image.
pub fn crashed(alloc: Global, disk: Untold, picks: &[Pick]) -> Result<Option<Untold>, Stop> {
    match disk.crash(alloc, picks) {
        Ok(left) => Ok(Some(left)),
        Err(CrashError::NotAnImage) => Ok(None),
        Err(CrashError::Memory) => Err(Stop::Memory),
    }
}

// A session over a disk, which is handed back.
fn put_session(
    alloc: Global,
    mut disk: Untold,
    steps: &[Row],
    out: &mut String,
) -> Result<Untold, Stop> {
    put_steps(alloc, &mut disk, steps, out)?;
    Ok(disk)
}

fn put_steps(
    alloc: Global,
    disk: &mut Untold,
    steps: &[Row],
    out: &mut String,
) -> Result<(), Stop> {
    if let Some(mut log) = opened(alloc, disk, out)? {
        for step in steps {
            put_told(alloc, disk, &mut log, step, out)?;
        }
    }
    Ok(())
}

fn put_left(alloc: Global, mut left: Untold, out: &mut String) -> Result<(), Stop> {
    put_standing(alloc, &mut left, out)
}

// What a log over a disk has, and Head.
fn put_standing(alloc: Global, left: &mut Untold, out: &mut String) -> Result<(), Stop> {
    out.push_str("; left ")?;
    if let Some(log) = opened(alloc, left, out)? {
        put_payloads(alloc, left, &log, out)?;
    }
    out.push_str(", head ")?;
    Ok(put_bytes(out, left.file(FileNo::Head))?)
}
