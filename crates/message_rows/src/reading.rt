//! Messages, heads and bodies.
use crate::show::{put_bytes, put_fields, put_quoted};
use mt_edge::{MemSource, ReadStep, Source};
use mt_http::{
    BodyStream, Framing, Head, Message, MessageEnd, closes, limit_of, read_head, read_message,
    wants_interim,
};
use mt_rows::Stop;
use std::alloc::{AllocError, Global};

/// A body is read by at most so many reads.
const MOST_READS: u32 = 30;

/// A source of bytes, of which no read takes more than so many bytes, and the reads of these numbers fail.
pub fn source_of(
    alloc: Global,
    bytes: &[u8],
    most: usize,
    fails: &[u64],
) -> Result<MemSource, AllocError> {
    let source = MemSource::new(alloc, Vec::from_slice(alloc, bytes)?).at_most(most.max(1));
    Ok(source.failing(Vec::from_slice(alloc, fails)?))
}

/// Appends the message at the front of a source and what is left behind it, or why there is none.
pub fn put_message(alloc: Global, source: &mut MemSource, out: &mut String) -> Result<(), Stop> {
    match read_message(alloc, source) {
        Ok(message) => Ok(show(&message, source.left(), out)?),
        Err(MessageEnd::Memory) => Err(Stop::Memory),
        Err(end) => Ok(write!(out, "{end:?}")?),
    }
}

// A message, and what is left behind it.
fn show(message: &Message, left: &[u8], out: &mut String) -> Result<(), AllocError> {
    out.push_str(message.method.as_str())?;
    out.push(' ')?;
    put_bytes(out, message.target.as_slice())?;
    write!(out, " 1.{}", message.minor)?;
    put_fields(out, message.fields.as_slice())?;
    out.push_str("; body ")?;
    put_quoted(out, message.body.as_slice())?;
    out.push_str("; left ")?;
    put_quoted(out, left)
}

// What ends a row that has no head.
fn stop_of(end: MessageEnd) -> Stop {
    match end {
        MessageEnd::Memory => Stop::Memory,
        _ => Stop::NoSuchRow,
    }
}

// The head at the front of a source.
fn head_of(alloc: Global, source: &mut MemSource) -> Result<Head, Stop> {
    match read_head(alloc, source) {
        Ok(head) => Ok(head),
        Err(end) => Err(stop_of(end)),
    }
}

/// Appends what the head at the front of a source asks for.
pub fn put_asked(alloc: Global, source: &mut MemSource, out: &mut String) -> Result<(), Stop> {
    let head = head_of(alloc, source)?;
    Ok(put_wants(&head, out)?)
}

// What a head asks for.
fn put_wants(head: &Head, out: &mut String) -> Result<(), AllocError> {
    let limit = limit_of(head);
    let interim = wants_interim(head);
    let last = closes(head.minor, head.fields.as_slice());
    put_limits(head.framing, limit, interim, last, out)
}

fn put_limits(
    framing: Framing,
    limit: u64,
    interim: bool,
    last: bool,
    out: &mut String,
) -> Result<(), AllocError> {
    write!(
        out,
        "{framing:?}, limit {limit}, interim {interim}, closes {last}"
    )
}

/// Appends the reads of the body at the front of a source, each with its ending, and what is left behind it. With no
/// limit it is that of the head.
pub fn put_stream(
    alloc: Global,
    source: &mut MemSource,
    limit: Option<u64>,
    out: &mut String,
) -> Result<(), Stop> {
    let head = head_of(alloc, source)?;
    Ok(put_body(source, &head, limit, out)?)
}

// The reads of the body of a head, and what is left behind it.
fn put_body(
    source: &mut MemSource,
    head: &Head,
    limit: Option<u64>,
    out: &mut String,
) -> Result<(), AllocError> {
    put_reads(source, head, limit.unwrap_or(limit_of(head)), out)?;
    out.push_str("left ")?;
    put_quoted(out, source.left())
}

// The reads of the body of a head.
fn put_reads(
    source: &mut MemSource,
    head: &Head,
    limit: u64,
    out: &mut String,
) -> Result<(), AllocError> {
    let mut stream = BodyStream::new(source, head, limit);
    put_each(&mut stream, out)
}

fn put_each(stream: &mut BodyStream<'_, MemSource>, out: &mut String) -> Result<(), AllocError> {
    for _ in 0..MOST_READS {
        if put_next(stream, out)? {
            return Ok(());
        }
    }
    Ok(())
}

// The next read, with the ending behind it. Whether it said that the body ends.
fn put_next(stream: &mut BodyStream<'_, MemSource>, out: &mut String) -> Result<bool, AllocError> {
    let mut piece = [0; 64];
    let step = stream.read(&mut piece);
    put_step(step, &piece, out)?;
    write!(out, " {:?}; ", stream.ending())?;
    Ok(step == ReadStep::End)
}

fn put_step(step: ReadStep, piece: &[u8], out: &mut String) -> Result<(), AllocError> {
    match step {
        ReadStep::Took(count) => put_quoted(out, &piece[..count.min(piece.len())]),
        ReadStep::End => out.push_str("End"),
        ReadStep::Failed => out.push_str("Failed"),
    }
}
