//! The rows: bytes that are read, and records that are written again.
use crate::hex::{bytes_from, put_hex};
use crate::show::{kind_of, show};
use crate::written::written;
use md5::{Digest, Md5};
use mt_codec::DecodeError;
use mt_rows::{Row, Rows, Stop};
use mt_snapshot::{SnapshotRecord, read_record};
use mt_types::Body;
use std::alloc::{AllocError, Global};

/// What bytes are said to be that are no record.
const NOT_A_RECORD: &str = "NotARecord";

/// The bytes of the row `read` or `kind` that came last.
#[derive(Drop)]
pub struct Records {
    bytes: Vec<u8>,
}

impl Records {
    /// No bytes.
    pub fn new(alloc: Global) -> Records {
        Records {
            bytes: Vec::new(alloc),
        }
    }
}

// What is read, or `None` where no record is. Memory stops the row.
fn record_in(alloc: Global, bytes: &[u8]) -> Result<Option<SnapshotRecord<Body>>, Stop> {
    match read_record(alloc, bytes) {
        Ok(record) => Ok(Some(record)),
        Err(DecodeError::NotACommand) => Ok(None),
        Err(DecodeError::Memory) => Err(Stop::Memory),
    }
}

// A record as text, each in a line of its own.
fn put_shown(record: &Option<SnapshotRecord<Body>>, out: &mut String) -> Result<(), AllocError> {
    match record {
        Some(record) => {
            out.push_str("\n    ")?;
            show(record, out)
        }
        None => out.push_str(NOT_A_RECORD),
    }
}

fn put_read(alloc: Global, bytes: &[u8], out: &mut String) -> Result<(), Stop> {
    let record = record_in(alloc, bytes)?;
    Ok(put_shown(&record, out)?)
}

fn kind_or_none(record: &Option<SnapshotRecord<Body>>) -> &'static str {
    match record {
        Some(record) => kind_of(record),
        None => NOT_A_RECORD,
    }
}

// The kind of what is read.
fn kind_in(alloc: Global, bytes: &[u8]) -> Result<&'static str, Stop> {
    let record = record_in(alloc, bytes)?;
    Ok(kind_or_none(&record))
}

fn put_kind(alloc: Global, bytes: &[u8], out: &mut String) -> Result<(), Stop> {
    let kind = kind_in(alloc, bytes)?;
    Ok(out.push_str(kind)?)
}

fn put_written(alloc: Global, bytes: &[u8], by: u64, out: &mut String) -> Result<(), Stop> {
    let again = written(alloc, bytes, by)?;
    write!(out, "\n    {} bytes: ", again.len())?;
    Ok(put_hex(out, &again)?)
}

fn put_digest(alloc: Global, bytes: &[u8], by: u64, out: &mut String) -> Result<(), Stop> {
    let again = written(alloc, bytes, by)?;
    write!(out, "{} bytes, md5 ", again.len())?;
    let sum: [u8; 16] = Md5::digest(&again);
    Ok(put_hex(out, &sum)?)
}

// Whether these bytes are a record.
fn is_record(alloc: Global, bytes: &[u8]) -> Result<bool, Stop> {
    let record = record_in(alloc, bytes)?;
    Ok(record.is_some())
}

// The lengths of the fronts that are records.
fn put_lengths(alloc: Global, bytes: &[u8], out: &mut String) -> Result<(), Stop> {
    out.push_str("records at")?;
    for n in 0..=bytes.len() {
        if is_record(alloc, &bytes[..n])? {
            write!(out, " {n}")?;
        }
    }
    Ok(())
}

// The lengths of the fronts that are records, where bytes stand behind others.
fn put_fronts(alloc: Global, first: &[u8], behind: &[u8], out: &mut String) -> Result<(), Stop> {
    let mut bytes = Vec::from_slice(alloc, first)?;
    bytes.extend_from_slice(behind)?;
    put_lengths(alloc, &bytes, out)
}

impl Records {
    fn read(&mut self, alloc: Global, row: &Row, out: &mut String) -> Result<(), Stop> {
        self.bytes = bytes_from(alloc, row, 1)?;
        put_read(alloc, &self.bytes, out)
    }

    fn kind(&mut self, alloc: Global, row: &Row, out: &mut String) -> Result<(), Stop> {
        self.bytes = bytes_from(alloc, row, 1)?;
        put_kind(alloc, &self.bytes, out)
    }

    fn written(&self, alloc: Global, row: &Row, out: &mut String) -> Result<(), Stop> {
        put_written(alloc, &self.bytes, row.number(1)?, out)
    }

    fn digest(&self, alloc: Global, row: &Row, out: &mut String) -> Result<(), Stop> {
        put_digest(alloc, &self.bytes, row.number(1)?, out)
    }

    fn fronts(&self, alloc: Global, row: &Row, out: &mut String) -> Result<(), Stop> {
        let behind = bytes_from(alloc, row, 1)?;
        put_fronts(alloc, &self.bytes, &behind, out)
    }
}

impl Rows for Records {
    fn answer(
        &mut self,
        alloc: Global,
        _line: &str,
        row: &Row,
        out: &mut String,
    ) -> Result<(), Stop> {
        match row.text(0)? {
            "read" => self.read(alloc, row, out),
            "kind" => self.kind(alloc, row, out),
            "written" => self.written(alloc, row, out),
            "digest" => self.digest(alloc, row, out),
            "fronts" => self.fronts(alloc, row, out),
            _ => Err(Stop::NoSuchRow),
        }
    }
}
