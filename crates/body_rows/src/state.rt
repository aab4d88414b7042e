//! The log, the source and the body that rows speak of.
use md5::{Digest, Md5};
use mt_body::{Storing, digest_rest, read_body, send_body, store};
use mt_disk::{FileNo, Room};
use mt_edge::{MemSink, MemSource};
use mt_log::Log;
use mt_rows::{Row, Rows, Stop};
use mt_types::Body;
use mt_untold::Untold;
use std::alloc::{AllocError, Global};
use std::mem;

/// The most bytes of a source, of a part and of a sink.
const MOST: u64 = 1_200_000;

/// The room of a disk: a body of 1,000,000 bytes, and more.
const ROOM: Room = Room {
    file: 1_200_000,
    calls: 256,
    written: 1_200_000,
};

/// A log over a disk, a source, and the body that was stored last.
#[derive(Drop)]
pub struct Bodies {
    disk: Option<Untold>,
    log: Option<Log>,
    source: MemSource,
    body: Option<Body>,
}

fn put_hex(out: &mut String, bytes: &[u8]) -> Result<(), AllocError> {
    for byte in bytes {
        write!(out, "{byte:02x}")?;
    }
    Ok(())
}

// How many bytes, and their digest.
fn put_bytes(out: &mut String, bytes: &[u8]) -> Result<(), AllocError> {
    write!(out, "{} bytes ", bytes.len())?;
    put_hex(out, &Md5::digest(bytes))
}

// A length that is not too large.
fn length_at(row: &Row, place: usize) -> Result<usize, Stop> {
    match row.number(place)? {
        len if len <= MOST => Ok(len as usize),
        _ => Err(Stop::NoSuchRow),
    }
}

// So many bytes, no two pieces of which are alike.
fn pattern(alloc: Global, len: usize) -> Result<Vec<u8>, AllocError> {
    let mut bytes = Vec::with_capacity(alloc, len)?;
    for i in 0..len {
        bytes.push(((i % 251) ^ (i / 256 % 256)) as u8)?;
    }
    Ok(bytes)
}

// The number of bytes, the most that a read takes or 0, and the reads that fail.
fn source_of(alloc: Global, row: &Row) -> Result<MemSource, Stop> {
    let bytes = pattern(alloc, length_at(row, 1)?)?;
    let source = MemSource::new(alloc, bytes).failing(row.numbers(alloc, 3)?);
    match row.number(2)? as usize {
        0 => Ok(source),
        most => Ok(source.at_most(most)),
    }
}

// Stores the source in a run of its own, and digests what is left after `Full`.
fn put_stored(
    alloc: Global,
    disk: &mut Untold,
    log: &mut Log,
    source: &mut MemSource,
    out: &mut String,
) -> Result<Option<Body>, Stop> {
    if log.is_closed() || log.is_old() {
        return Err(Stop::NoSuchRow);
    }
    let mut sum = Md5::new();
    let mut run = log.begin_run(disk);
    let stored = store(alloc, log, disk, &mut run, source, &mut sum);
    let body = match stored {
        Storing::Stored(body) => {
            write!(out, "Stored {} {} ", body.first, body.len)?;
            put_hex(out, &body.md5)?;
            Some(body)
        }
        Storing::Full => {
            write!(out, "Full, {:?}", digest_rest(source, &mut sum))?;
            None
        }
        Storing::Memory => return Err(Stop::Memory),
        other => {
            write!(out, "{other:?}")?;
            None
        }
    };
    let end = log.end_run(disk, run);
    write!(out, "; {end:?}, log {}; digest ", log.len())?;
    put_hex(out, &sum.finalize())?;
    write!(out, "; calls {}", disk.made())?;
    Ok(body)
}

// A part of the body.
fn put_part(
    alloc: Global,
    disk: &mut Untold,
    log: &Log,
    body: &Body,
    row: &Row,
    out: &mut String,
) -> Result<(), Stop> {
    let at = row.number(1)?;
    let len = length_at(row, 2)?;
    if log.is_closed() || at > body.len || len as u64 > body.len - at {
        return Err(Stop::NoSuchRow);
    }
    let mut part = Vec::with_capacity(alloc, len)?;
    part.resize(len, 0)?;
    let done = read_body(log, disk, body, at, part.as_mut_slice());
    write!(out, "{done:?} ")?;
    put_bytes(out, &part)?;
    write!(out, "; calls {}", disk.made())?;
    Ok(())
}

// The body up to a place, to a sink: from, to, the buffer's length, the sink's room and the most that a write takes.
fn put_sent(
    alloc: Global,
    disk: &mut Untold,
    log: &Log,
    body: &Body,
    row: &Row,
    out: &mut String,
) -> Result<(), Stop> {
    let from = row.number(1)?;
    let to = row.number(2)?;
    let len = length_at(row, 3)?;
    let most = length_at(row, 5)?;
    if log.is_closed() || len == 0 || most == 0 || from > to || to > body.len {
        return Err(Stop::NoSuchRow);
    }
    let mut buffer = Vec::with_capacity(alloc, len)?;
    buffer.resize(len, 0)?;
    let mut sink = MemSink::new(alloc, length_at(row, 4)?)?.at_most(most);
    let sent = send_body(log, disk, &mut sink, body, from, to, buffer.as_mut_slice());
    write!(out, "{sent:?} ")?;
    put_bytes(out, sink.written())?;
    write!(out, "; calls {}, writes {}", disk.made(), sink.calls())?;
    Ok(())
}

impl Bodies {
    /// No log yet, and a source of nothing.
    pub fn new(alloc: Global) -> Bodies {
        Bodies {
            disk: None,
            log: None,
            source: MemSource::new(alloc, Vec::new(alloc)),
            body: None,
        }
    }

    // A new log under a limit.
    fn open(&mut self, alloc: Global, row: &Row, out: &mut String) -> Result<(), Stop> {
        let mut disk = Untold::new(alloc, ROOM)?;
        match Log::open(alloc, &mut disk, row.number(1)?) {
            Ok(log) => {
                write!(out, "Ok({})", log.len())?;
                self.log = Some(log);
            }
            Err(_) => return Err(Stop::Memory),
        }
        self.disk = Some(disk);
        self.body = None;
        Ok(())
    }

    // A row of the log that is there. The numbers of `fail` are of its calls of the disk that fail.
    fn call(&mut self, alloc: Global, row: &Row, out: &mut String) -> Result<(), Stop> {
        let (Some(disk), Some(log)) = (&mut self.disk, &mut self.log) else {
            return Err(Stop::NoSuchRow);
        };
        match (row.text(0)?, &self.body) {
            ("fail", _) => disk.fail(row.numbers(alloc, 1)?),
            ("one", _) => put_bytes(out, disk.file(FileNo::One))?,
            ("store", _) => {
                let mut source = mem::replace(
                    &mut self.source,
                    MemSource::new(alloc, Vec::new(alloc)),
                );
                let body = put_stored(alloc, disk, log, &mut source, out)?;
                write!(
                    out,
                    "; left {}, failed {}",
                    source.left().len(),
                    source.faults()
                )?;
                if body.is_some() {
                    self.body = body;
                }
            }
            ("part", Some(body)) => put_part(alloc, disk, log, body, row, out)?,
            ("send", Some(body)) => put_sent(alloc, disk, log, body, row, out)?,
            _ => return Err(Stop::NoSuchRow),
        }
        Ok(())
    }
}

impl Rows for Bodies {
    fn answer(
        &mut self,
        alloc: Global,
        _line: &str,
        row: &Row,
        out: &mut String,
    ) -> Result<(), Stop> {
        match row.text(0)? {
            "open" => self.open(alloc, row, out),
            "source" => {
                self.source = source_of(alloc, row)?;
                Ok(())
            }
            _ => self.call(alloc, row, out),
        }
    }
}
