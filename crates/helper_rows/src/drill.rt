//! What a drill asks for, and what its commands give.
use crate::put_bytes;
use md5::{Digest, Md5};
use mt_base::{Sequence, Text};
use mt_edge::{ReadStep, Source};
use mt_gen::{DrillWork, GenSource, MOST_OBJECTS};
use mt_rows::{Row, Stop, put_escaped};
use mt_spawn::{Order, Work};
use mt_types::{Made, Raw};
use std::alloc::Global;

/// So many bytes are asked for at once.
const PIECE: usize = 1_000;

/// No drill takes more reads: each takes a message or an input whole.
const MOST_READS: u32 = 100_000;

// A source of the messages of so many objects.
fn messages(alloc: Global, row: &Row) -> Result<GenSource, Stop> {
    let count = row.number(1)?;
    if count > MOST_OBJECTS as u64 {
        return Err(Stop::NoSuchRow);
    }
    Ok(GenSource::new(alloc, count as u32)?)
}

// What one read takes, as a table shows it.
fn put_read(out: &mut String, read: ReadStep, buffer: &[u8]) -> Result<(), Stop> {
    match read {
        ReadStep::Took(count) => put_escaped(out, &buffer[..count.min(buffer.len())])?,
        ReadStep::End => out.push_str("End")?,
        ReadStep::Failed => out.push_str("Failed")?,
    }
    Ok(())
}

/// All messages: how many bytes they have, and their MD5 (RFC 1321).
pub fn put_messages(alloc: Global, row: &Row, out: &mut String) -> Result<(), Stop> {
    let mut source = messages(alloc, row)?;
    let mut buffer = [0u8; PIECE];
    let mut digest = Md5::new();
    let mut len: u64 = 0;
    for _ in 0..MOST_READS {
        match source.read(&mut buffer) {
            ReadStep::Took(count) => {
                digest.update(&buffer[..count]);
                len = len.saturating_add(count as u64);
            }
            end => {
                write!(out, "{len} bytes, md5 ")?;
                let sum: [u8; 16] = digest.finalize();
                for byte in sum {
                    write!(out, "{byte:02x}")?;
                }
                out.push_str(", then ")?;
                return put_read(out, end, &buffer);
            }
        }
    }
    Err(Stop::NoSuchRow)
}

/// The first reads of so many bytes at most.
pub fn put_reads(alloc: Global, row: &Row, out: &mut String) -> Result<(), Stop> {
    let mut source = messages(alloc, row)?;
    let most = row.number(2)?;
    if most < 1 || most > PIECE as u64 {
        return Err(Stop::NoSuchRow);
    }
    let mut buffer = [0u8; PIECE];
    for _ in 0..row.number(3)? {
        out.push('[')?;
        let read = source.read(&mut buffer[..most as usize]);
        put_read(out, read, &buffer)?;
        out.push(']')?;
    }
    Ok(())
}

/// What a command gives for its input.
pub fn put_work(alloc: Global, row: &Row, out: &mut String) -> Result<(), Stop> {
    let bytes = row.bytes(2)?;
    let order = Order {
        job: 0,
        phase: 0,
        exec: Text::from_str(alloc, row.text(1)?)?,
        init: None,
        base: Text::from_str(alloc, "")?,
        object: None,
        reducer: None,
        input: bytes.len() as u64,
        assets: Sequence::new(alloc),
    };
    let Raw {
        status,
        stderr: _,
        made,
    } = DrillWork.work(alloc, &order, bytes, false)?;
    write!(out, "{status}")?;
    if let Made::Whole { out: whole, files } = made {
        put_bytes(out, whole.as_slice())?;
        for file in files.as_slice() {
            write!(out, "; {}", file.number)?;
            put_bytes(out, file.bytes.as_slice())?;
        }
    }
    Ok(())
}
