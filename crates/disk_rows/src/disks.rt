//! The calls of `mt_disk`.
use crate::ahead::put_ahead;
use crate::logs;
use mt_disk::{Disk, FileNo};
use mt_log::Log;
use mt_rows::{Row, Stop, put_escaped};
use mt_untold::Untold;
use std::alloc::{AllocError, Global};

/// The most bytes that a row reads.
const MOST_READ: u64 = 4096;

/// The file that a row names at a place.
pub fn file_at(row: &Row, place: usize) -> Result<FileNo, Stop> {
    match row.text(place)? {
        "head" => Ok(FileNo::Head),
        "one" => Ok(FileNo::One),
        "two" => Ok(FileNo::Two),
        _ => Err(Stop::NoSuchRow),
    }
}

/// Appends bytes as a table shows them, and `\e` for none.
pub fn put_bytes(out: &mut String, bytes: &[u8]) -> Result<(), AllocError> {
    if bytes.is_empty() {
        return out.push_str("\\e");
    }
    put_escaped(out, bytes)
}

/// So many zeros, at most 4,096.
pub fn zeros(alloc: Global, len: u64) -> Result<Vec<u8>, Stop> {
    if len > MOST_READ {
        return Err(Stop::NoSuchRow);
    }
    let mut bytes = Vec::new(alloc);
    bytes.resize(len as usize, 0)?;
    Ok(bytes)
}

/// Answers a row of a disk, or else of the log over it.
pub fn answer(
    alloc: Global,
    disk: &mut Untold,
    log: &mut Option<Log>,
    row: &Row,
    out: &mut String,
) -> Result<(), Stop> {
    match row.text(0)? {
        "len" => put_len(disk, row, out),
        "read" => put_read(alloc, disk, row, out),
        "write" => put_write(disk, row, out),
        "cut" => put_cut(disk, row, out),
        "sync" => put_sync(disk, row, out),
        "file" => Ok(put_bytes(out, disk.file(file_at(row, 1)?))?),
        "calls" => Ok(write!(out, "{}", disk.calls())?),
        "ahead" => put_ahead(alloc, disk, row, out),
        _ => match log {
            Some(log) => logs::answer(alloc, disk, log, row, out),
            None => Err(Stop::NoSuchRow),
        },
    }
}

fn put_len(disk: &mut Untold, row: &Row, out: &mut String) -> Result<(), Stop> {
    Ok(write!(out, "{:?}", disk.len(file_at(row, 1)?))?)
}

// The bytes that a read gives.
fn put_read(alloc: Global, disk: &mut Untold, row: &Row, out: &mut String) -> Result<(), Stop> {
    let mut into = zeros(alloc, row.number(3)?)?;
    let done = disk.read(file_at(row, 1)?, row.number(2)?, &mut into);
    write!(out, "{done:?} ")?;
    Ok(put_bytes(out, &into)?)
}

fn put_write(disk: &mut Untold, row: &Row, out: &mut String) -> Result<(), Stop> {
    let done = disk.write_at(file_at(row, 1)?, row.number(2)?, row.bytes(3)?);
    Ok(write!(out, "{done:?}")?)
}

fn put_cut(disk: &mut Untold, row: &Row, out: &mut String) -> Result<(), Stop> {
    Ok(write!(out, "{:?}", disk.cut(file_at(row, 1)?, row.number(2)?))?)
}

fn put_sync(disk: &mut Untold, row: &Row, out: &mut String) -> Result<(), Stop> {
    Ok(write!(out, "{:?}", disk.sync(file_at(row, 1)?))?)
}
