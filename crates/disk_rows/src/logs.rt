//! The calls of `mt_log`.
ghost use Rattle.std.specs.Prelude.{◌≡◌, ◌≤◌, false};

use crate::disks::{put_bytes, zeros};
use mt_log::{AppendError, Log, OpenError, Run};
use mt_rows::{Row, Stop};
use mt_untold::Untold;
use std::alloc::{AllocError, Global};

/// Payloads are shorter.
const MOST: u64 = 1 << 32;

/// The most payloads that a row shows.
const MOST_SHOWN: u64 = 64;

/// What a run of records answered.
#[derive(Drop)]
pub struct Ran {
    pub adds: Vec<Result<u64, AppendError>>,
    pub end: Result<(), AppendError>,
}

/// Answers a row of a log.
pub fn answer(
    alloc: Global,
    disk: &mut Untold,
    log: &mut Log,
    row: &Row,
    out: &mut String,
) -> Result<(), Stop> {
    match row.text(0)? {
        "append" => put_append(disk, log, row, out),
        "run" => put_run(alloc, disk, log, row, out),
        "drop-run" => put_dropped(alloc, disk, log, row, out),
        "payloads" => put_all(alloc, disk, log, out),
        "payload-len" => put_len(disk, log, row, out),
        "read-at" => put_read(alloc, disk, log, row, out),
        "read-part" => put_part(alloc, disk, log, row, out),
        "close" => {
            log.close();
            Ok(())
        }
        _ => answer_of_state(log, row, out),
    }
}

// Answers a row that asks a log for its state.
fn answer_of_state(log: &Log, row: &Row, out: &mut String) -> Result<(), Stop> {
    match row.text(0)? {
        "log" => Ok(put_log(log, out)?),
        "has-room" => Ok(write!(out, "{}", log.has_room(row.number(1)?))?),
        "first" => Ok(write!(out, "{}", log.first())?),
        "next" => Ok(write!(out, "{:?}", log.next(row.number(1)?, row.number(2)?))?),
        _ => Err(Stop::NoSuchRow),
    }
}

/// Appends a payload.
pub fn append(
    disk: &mut Untold,
    log: &mut Log,
    payload: &[u8],
) -> Result<Result<u64, AppendError>, Stop> {
    if log.is_old() || payload.len() as u64 >= MOST {
        return Err(Stop::NoSuchRow);
    }
    Ok(log.append(disk, payload))
}

// Adds the payloads from a place of a row on to a run.
fn add_all(
    alloc: Global,
    disk: &mut Untold,
    log: &mut Log,
    run: &mut Run,
    row: &Row,
    from: usize,
) -> Result<Vec<Result<u64, AppendError>>, Stop>
    requires order { log.old.closed ≡ false → log.old.gate ≤ run.old.next }
    ensures order { log.new.closed ≡ false → log.new.gate ≤ run.new.next }
{
    let mut adds = Vec::new(alloc);
    for place in from..row.len() {
        let payload = row.bytes(place)?;
        if payload.len() as u64 >= MOST {
            return Err(Stop::NoSuchRow);
        }
        adds.push(log.add_to_run(disk, run, payload))?;
    }
    Ok(adds)
}

/// A run of the payloads behind the call of a row.
pub fn run(alloc: Global, disk: &mut Untold, log: &mut Log, row: &Row) -> Result<Ran, Stop> {
    if log.is_old() {
        return Err(Stop::NoSuchRow);
    }
    let mut run = log.begin_run(disk);
    let adds = add_all(alloc, disk, log, &mut run, row, 1)?;
    let end = log.end_run(disk, run);
    Ok(Ran { adds, end })
}

fn put_append(disk: &mut Untold, log: &mut Log, row: &Row, out: &mut String) -> Result<(), Stop> {
    Ok(write!(out, "{:?}", append(disk, log, row.bytes(1)?)?)?)
}

// What each record of a run was told, and the end.
fn put_run(
    alloc: Global,
    disk: &mut Untold,
    log: &mut Log,
    row: &Row,
    out: &mut String,
) -> Result<(), Stop> {
    let ran = run(alloc, disk, log, row)?;
    put_adds(ran.adds.as_slice(), out)?;
    Ok(write!(out, "end {:?}", ran.end)?)
}

fn put_adds(adds: &[Result<u64, AppendError>], out: &mut String) -> Result<(), AllocError> {
    for add in adds {
        write!(out, "{add:?}, ")?;
    }
    Ok(())
}

/// Why a log isn't opened.
pub fn put_refusal(out: &mut String, error: OpenError) -> Result<(), Stop> {
    match error {
        OpenError::Damaged { at, kept, computed } => {
            write!(out, "Damaged {{ at: {at}, kept: ")?;
            put_hex(out, &kept)?;
            out.push_str(", computed: ")?;
            put_hex(out, &computed)?;
            out.push_str(" }")?;
        }
        OpenError::Memory => return Err(Stop::Memory),
        error => write!(out, "{error:?}")?,
    }
    Ok(())
}

fn put_hex(out: &mut String, bytes: &[u8]) -> Result<(), AllocError> {
    for byte in bytes {
        write!(out, "{byte:02x}")?;
    }
    Ok(())
}

// The payload at a place of a log that isn't closed.
fn read(alloc: Global, disk: &mut Untold, log: &Log, place: u64) -> Result<Vec<u8>, Stop> {
    if log.is_closed() {
        return Err(Stop::NoSuchRow);
    }
    let mut payload = Vec::new(alloc);
    match log.read(disk, place, &mut payload) {
        Ok(()) => Ok(payload),
        Err(_) => Err(Stop::NoSuchRow),
    }
}

/// The payloads from the first on, each behind a blank.
pub fn put_payloads(
    alloc: Global,
    disk: &mut Untold,
    log: &Log,
    out: &mut String,
) -> Result<(), Stop> {
    let mut place = log.first();
    for _ in 0..MOST_SHOWN {
        if place >= log.len() - 1 {
            return Ok(());
        }
        let payload = read(alloc, disk, log, place)?;
        out.push(' ')?;
        put_bytes(out, &payload)?;
        let Some(next) = log.next(place, payload.len() as u64) else {
            return Ok(());
        };
        place = next;
    }
    Ok(())
}

// How long a log is, and its payloads.
fn put_all(alloc: Global, disk: &mut Untold, log: &Log, out: &mut String) -> Result<(), Stop> {
    write!(out, "{} bytes:", log.len())?;
    put_payloads(alloc, disk, log, out)
}

fn put_log(log: &Log, out: &mut String) -> Result<(), AllocError> {
    write!(
        out,
        "{} bytes, limit {}, closed {}, old {}",
        log.len(),
        log.limit(),
        log.is_closed(),
        log.is_old()
    )
}

fn put_len(disk: &mut Untold, log: &Log, row: &Row, out: &mut String) -> Result<(), Stop> {
    if log.is_closed() {
        return Err(Stop::NoSuchRow);
    }
    Ok(write!(out, "{:?}", log.payload_len(disk, row.number(1)?))?)
}

// A run that is given up: what each record was told, whether there was room for one more of so many bytes, and the end.
fn put_dropped(
    alloc: Global,
    disk: &mut Untold,
    log: &mut Log,
    row: &Row,
    out: &mut String,
) -> Result<(), Stop> {
    if log.is_old() {
        return Err(Stop::NoSuchRow);
    }
    let mut run = log.begin_run(disk);
    let adds = add_all(alloc, disk, log, &mut run, row, 2)?;
    put_adds(adds.as_slice(), out)?;
    let has_room = log.has_room_in_run(&run, row.number(1)?);
    let end = log.drop_run(disk, run);
    write!(out, "room {has_room}, dropped {end:?}")?;
    Ok(())
}

fn put_read(
    alloc: Global,
    disk: &mut Untold,
    log: &Log,
    row: &Row,
    out: &mut String,
) -> Result<(), Stop> {
    if log.is_closed() {
        return Err(Stop::NoSuchRow);
    }
    let mut payload = Vec::new(alloc);
    let done = log.read(disk, row.number(1)?, &mut payload);
    write!(out, "{done:?} ")?;
    put_bytes(out, &payload)?;
    Ok(())
}

fn put_part(
    alloc: Global,
    disk: &mut Untold,
    log: &Log,
    row: &Row,
    out: &mut String,
) -> Result<(), Stop> {
    if log.is_closed() {
        return Err(Stop::NoSuchRow);
    }
    let mut part = zeros(alloc, row.number(3)?)?;
    let Ok(from) = u32::try_from(row.number(2)?) else {
        return Err(Stop::NoSuchRow);
    };
    let done = log.read_part(disk, row.number(1)?, from, &mut part);
    write!(out, "{done:?} ")?;
    put_bytes(out, &part)?;
    Ok(())
}
