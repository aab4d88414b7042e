//! Replies.
ghost use Rattle.std.specs.Prelude.{IfOk};
ghost use Rattle.mt_http.specs.ReplyText.{IsHeld};

use crate::show::put_text;
use mt_base::{Bytes, Sequence, Text};
use mt_edge::MemSink;
use mt_http::{Field, Fields, Reply, ReplyBody, ReplyEnd, write_head, write_interim, write_reply};
use mt_rows::{Row, Stop};
use std::alloc::{AllocError, Global};

// The fields whose names and values stand from a place on.
fn fields_from(alloc: Global, row: &Row, from: usize) -> Result<Fields, Stop> {
    let mut fields = Sequence::new(alloc);
    for place in (from..row.len()).step_by(2) {
        fields.push(field_at(alloc, row, place)?)?;
    }
    Ok(fields)
}

// The field whose name and value stand from a place on.
fn field_at(alloc: Global, row: &Row, place: usize) -> Result<Field, Stop> {
    let name = row.text(place)?;
    let value = row.bytes(place.wrapping_add(1))?;
    Ok(field_of(alloc, name, value)?)
}

fn field_of(alloc: Global, name: &str, value: &[u8]) -> Result<Field, AllocError> {
    let name = Text::from_str(alloc, name)?;
    let value = Bytes::from_slice(alloc, value)?;
    Ok(Field { name, value })
}

// The word `closes` or `stays` at a place.
fn closes_at(row: &Row, place: usize) -> Result<bool, Stop> {
    match row.text(place)? {
        "closes" => Ok(true),
        "stays" => Ok(false),
        _ => Err(Stop::NoSuchRow),
    }
}

fn status_at(row: &Row, place: usize) -> Result<u16, Stop> {
    match row.text(place)?.parse::<u16>() {
        Ok(status) => Ok(status),
        Err(_) => Err(Stop::NoSuchRow),
    }
}

/// A sink of so much room, of which no write takes more than so many bytes, and the writes of these numbers fail.
pub fn sink_of(
    alloc: Global,
    room: usize,
    most: usize,
    fails: &[u64],
) -> Result<MemSink, AllocError> {
    let fails = Vec::from_slice(alloc, fails)?;
    Ok(
        MemSink::new(alloc, room)?
            .at_most(most.max(1))
            .failing(fails),
    )
}

// The reply of a row `.. STATUS closes|stays .. NAME VALUE ..`, with this body.
fn reply_of(alloc: Global, row: &Row, body: &[u8]) -> Result<Reply<Bytes>, Stop>
    ensures { IfOk result (λ reply. IsHeld reply.body) }
{
    let status = status_at(row, 1)?;
    let closes = closes_at(row, 2)?;
    let body = Bytes::from_slice(alloc, body)?;
    let fields = fields_from(alloc, row, 4)?;
    Ok(Reply {
        status,
        fields,
        body: ReplyBody::Held(body),
        closes,
    })
}

/// Writes the reply of a row `reply STATUS closes|stays BODY NAME VALUE ..` to a sink, or its head alone.
pub fn put_reply(
    alloc: Global,
    row: &Row,
    head_only: bool,
    sink: &mut MemSink,
    out: &mut String,
) -> Result<(), Stop> {
    let reply = reply_of(alloc, row, row.bytes(3)?)?;
    let written = write_reply(alloc, sink, &reply, head_only);
    put_written(written, sink, out)
}

/// Writes the head of a row `head STATUS closes|stays SIZE NAME VALUE ..` to a sink.
pub fn put_head(
    alloc: Global,
    row: &Row,
    sink: &mut MemSink,
    out: &mut String,
) -> Result<(), Stop> {
    let size = row.number(3)?;
    let reply = reply_of(alloc, row, b"")?;
    let written = write_head(alloc, sink, &reply, size);
    put_written(written, sink, out)
}

fn put_written(
    written: Result<(), ReplyEnd>,
    sink: &MemSink,
    out: &mut String,
) -> Result<(), Stop> {
    let word = match written {
        Ok(()) => "Ok",
        Err(ReplyEnd::SinkFault) => "SinkFault",
        Err(ReplyEnd::Memory) => return Err(Stop::Memory),
    };
    out.push_str(word)?;
    Ok(put_text(out, sink.written())?)
}

/// Writes the interim reply to a sink.
pub fn put_interim(sink: &mut MemSink, out: &mut String) -> Result<(), AllocError> {
    let written = write_interim(sink);
    write!(out, "{written:?}")?;
    put_text(out, sink.written())
}
