//! Rows of `mt_join`: a log over a disk, the parts that are stored there, and the body that they are joined to.
use md5::{Digest, Md5};
use mt_base::zeros;
use mt_body::{Storing, read_body, store};
use mt_disk::{FileNo, Room};
use mt_edge::MemSource;
use mt_join::{Joining, join, pieces_size};
use mt_log::Log;
use mt_rows::{Row, Stop};
use mt_types::{Body, PartRow};
use mt_untold::Untold;
use std::alloc::{AllocError, Global};

/// The most bytes of a part.
const MOST: u64 = 200_000;

/// The room of a disk: three parts, and their join.
const ROOM: Room = Room {
    file: 1_200_000,
    calls: 256,
    written: 1_200_000,
};

/// A log over a disk, the parts that were stored last, and the body that was joined last.
#[derive(Drop)]
pub struct Joins {
    disk: Option<Untold>,
    log: Option<Log>,
    parts: Vec<PartRow<Body>>,
    body: Option<Body>,
}

fn put_hex(out: &mut String, bytes: &[u8]) -> Result<(), AllocError> {
    for byte in bytes {
        write!(out, "{byte:02x}")?;
    }
    Ok(())
}

// The place, the length and the digest of a body.
fn put_body(out: &mut String, body: &Body) -> Result<(), AllocError> {
    write!(out, "{} {} ", body.first, body.len)?;
    put_hex(out, &body.md5)
}

// The bytes of the part of this number, no two pieces of which are alike.
fn pattern(alloc: Global, number: u8, len: usize) -> Result<Vec<u8>, AllocError> {
    let mut bytes = Vec::with_capacity(alloc, len)?;
    for i in 0..len {
        bytes.push((((i % 251 + number as usize) % 251) ^ (i / 256 % 256)) as u8)?;
    }
    Ok(bytes)
}

// Stores the part of this number in a run of its own.
fn stored(
    alloc: Global,
    disk: &mut Untold,
    log: &mut Log,
    number: u8,
    len: u64,
) -> Result<Body, Stop> {
    if log.is_closed() || log.is_old() || len > MOST {
        return Err(Stop::NoSuchRow);
    }
    let mut sum = Md5::new();
    let mut source = MemSource::new(alloc, pattern(alloc, number, len as usize)?);
    let mut run = log.begin_run(disk);
    let stored = store(alloc, log, disk, &mut run, &mut source, &mut sum);
    let end = log.end_run(disk, run);
    match (stored, end) {
        (Storing::Stored(body), Ok(())) => Ok(body),
        (Storing::Memory, _) => Err(Stop::Memory),
        _ => Err(Stop::NoSuchRow),
    }
}

// Stores parts of these lengths, numbered from 0.
fn parts_of(
    alloc: Global,
    disk: &mut Untold,
    log: &mut Log,
    lens: &[u64],
) -> Result<Vec<PartRow<Body>>, Stop> {
    let mut parts = Vec::new(alloc);
    let mut number = 0;
    for len in lens {
        let body = stored(alloc, disk, log, number, *len)?;
        parts.push(PartRow {
            index: number as u16,
            number: number as u64,
            body,
        })?;
        number = number.saturating_add(1);
    }
    Ok(parts)
}

// Stores parts of the lengths of a row.
fn stored_parts(
    alloc: Global,
    disk: &mut Untold,
    log: &mut Log,
    row: &Row,
) -> Result<Vec<PartRow<Body>>, Stop> {
    let lens = row.numbers(alloc, 1)?;
    parts_of(alloc, disk, log, &lens)
}

// `stored LENGTH ..`
fn put_parts(
    alloc: Global,
    disk: &mut Untold,
    log: &mut Log,
    parts: &mut Vec<PartRow<Body>>,
    row: &Row,
    out: &mut String,
) -> Result<(), Stop> {
    *parts = stored_parts(alloc, disk, log, row)?;
    Ok(write!(out, "log {}", log.len())?)
}

// What became of a join.
fn put_joining(joining: &Joining, out: &mut String) -> Result<(), AllocError> {
    match joining {
        Joining::Joined(body) => {
            out.push_str("Joined ")?;
            put_body(out, body)
        }
        other => write!(out, "{other:?}"),
    }
}

// The body that a join made.
fn joined(joining: Joining) -> Option<Body> {
    match joining {
        Joining::Joined(body) => Some(body),
        _ => None,
    }
}

// Joins the parts in a run, and ends it.
fn put_joined(
    alloc: Global,
    disk: &mut Untold,
    log: &mut Log,
    parts: &[PartRow<Body>],
    out: &mut String,
) -> Result<Option<Body>, Stop> {
    if log.is_closed() || log.is_old() {
        return Err(Stop::NoSuchRow);
    }
    let mut run = log.begin_run(disk);
    let joining = join(alloc, log, disk, &mut run, parts);
    if joining == Joining::Memory {
        return Err(Stop::Memory);
    }
    let end = log.end_run(disk, run);
    put_joining(&joining, out)?;
    write!(out, "; {end:?}, log {}; calls {}", log.len(), disk.made())?;
    Ok(joined(joining))
}

// How many bytes were read, and their digest.
fn put_bytes(bytes: &[u8], out: &mut String) -> Result<(), AllocError> {
    write!(out, "{} bytes ", bytes.len())?;
    put_hex(out, &Md5::digest(bytes))
}

// All bytes of the body.
fn put_whole(
    alloc: Global,
    disk: &mut Untold,
    log: &Log,
    body: &Body,
    out: &mut String,
) -> Result<(), Stop> {
    if log.is_closed() || body.len > 3 * MOST {
        return Err(Stop::NoSuchRow);
    }
    let mut bytes = zeros(alloc, body.len as usize)?;
    let done = read_body(log, disk, body, 0, bytes.as_mut_slice());
    write!(out, "{done:?} ")?;
    Ok(put_bytes(&bytes, out)?)
}

// The log of a disk.
fn opened(alloc: Global, disk: &mut Untold, limit: u64) -> Result<Log, Stop> {
    match Log::open(alloc, disk, limit) {
        Ok(log) => Ok(log),
        Err(_) => Err(Stop::Memory),
    }
}

// `fail CALL ..`: the calls of the disk that fail.
fn fail(alloc: Global, disk: &mut Untold, row: &Row) -> Result<(), Stop> {
    disk.fail(row.numbers(alloc, 1)?);
    Ok(())
}

impl Joins {
    /// No log yet.
    pub fn new(alloc: Global) -> Joins {
        Joins {
            disk: None,
            log: None,
            parts: Vec::new(alloc),
            body: None,
        }
    }

    // A new log under a limit.
    fn open(&mut self, alloc: Global, row: &Row, out: &mut String) -> Result<(), Stop> {
        let limit = row.number(1)?;
        let mut disk = Untold::new(alloc, ROOM)?;
        let log = opened(alloc, &mut disk, limit)?;
        let len = log.len();
        self.log = Some(log);
        self.disk = Some(disk);
        self.parts = Vec::new(alloc);
        self.body = None;
        Ok(write!(out, "Ok({len})")?)
    }

    // A row of the log that is there.
    fn call(&mut self, alloc: Global, row: &Row, out: &mut String) -> Result<(), Stop> {
        let (Some(disk), Some(log)) = (&mut self.disk, &mut self.log) else {
            return Err(Stop::NoSuchRow);
        };
        match row.text(0)? {
            "fail" => fail(alloc, disk, row),
            "one" => Ok(put_bytes(disk.file(FileNo::One), out)?),
            "stored" => put_parts(alloc, disk, log, &mut self.parts, row, out),
            "join" => {
                self.body = put_joined(alloc, disk, log, &self.parts, out)?;
                Ok(())
            }
            _ => match &self.body {
                Some(body) => put_whole(alloc, disk, log, body, out),
                None => Err(Stop::NoSuchRow),
            },
        }
    }

    /// The answer to a row of this module.
    pub fn answer(&mut self, alloc: Global, row: &Row, out: &mut String) -> Result<(), Stop> {
        match row.text(0)? {
            "open" => self.open(alloc, row, out),
            "size" => Ok(write!(out, "{}", pieces_size(row.number(1)?))?),
            _ => self.call(alloc, row, out),
        }
    }
}
