//! Files by number.
ghost use Rattle.std.specs.Prelude.{◌≡◌, ◌<◌, true, length};
ghost use Rattle.mt_spawn.specs.Spools.{has_file};
ghost use Rattle.mt_spawn.specs.SpoolMemory.{files_of};

use mt_rows::{Row, Stop, put_escaped};
use mt_spawn::{MemSpool, Spool};
use std::alloc::{AllocError, Global};

// The files in the order in which they were made, and how many calls failed.
fn put_files(spool: &MemSpool, out: &mut String) -> Result<(), AllocError> {
    for file in spool.files() {
        write!(out, "{}:", file.number)?;
        put_escaped(out, file.bytes.as_slice())?;
        out.push_str(", ")?;
    }
    write!(out, "failed {}", spool.faults())
}

// `append NUMBER BYTES`.
fn append(spool: &mut MemSpool, row: &Row, out: &mut String) -> Result<(), Stop> {
    let number = number_of(row)?;
    let piece = row.bytes(2)?;
    if piece.is_empty() || !spool.has(number) {
        return Err(Stop::NoSuchRow);
    }
    Ok(put_append(spool, number, piece, out)?)
}

// Adds a piece to a file, and prints what that did.
fn put_append(
    spool: &mut MemSpool,
    number: u32,
    piece: &[u8],
    out: &mut String,
) -> Result<(), AllocError>
    requires there { has_file number (files_of spool.old.files.items) ≡ true }
    requires some { 0 < length piece.now }
{
    let added = spool.append(number, piece);
    write!(out, "{added:?}")
}

// The number of a file that a row names.
fn number_of(row: &Row) -> Result<u32, Stop> {
    let number = row.number(1)?;
    if number > u32::MAX as u64 {
        return Err(Stop::NoSuchRow);
    }
    Ok(number as u32)
}

/// A spool of the room and the failing calls of a row.
pub fn spool_of(alloc: Global, row: &Row) -> Result<MemSpool, Stop> {
    let room = row.number(1)? as usize;
    let failing = row.numbers(alloc, 2)?;
    Ok(MemSpool::new(alloc, room).failing(failing))
}

/// Answers a row of a spool.
pub fn answer(spool: &mut MemSpool, row: &Row, out: &mut String) -> Result<(), Stop> {
    match row.text(0)? {
        "create" => {
            let step = spool.create_new(number_of(row)?);
            Ok(write!(out, "{step:?}")?)
        }
        "append" => append(spool, row, out),
        "files" => Ok(put_files(spool, out)?),
        _ => Err(Stop::NoSuchRow),
    }
}
