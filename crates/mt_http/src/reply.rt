//! Replies, written to a sink (RFC 9112, sections 2 to 6).
ghost use Rattle.std.specs.Prelude.{◌≡◌, ◌≤◌, ◌++◌, ℕ, not, decimal, fold, insert, length, IfOk, OnOk};
ghost use Rattle.std.specs.List.{flat_map};
ghost use Rattle.mt_edge.specs.Stream.{WritesAll};
ghost use Rattle.mt_http.specs.Options.{interim_line};
ghost use Rattle.mt_http.specs.ReplyText.{IsHeld, closing_fields, field_line, fields_with, has_no_body, head_text, held_bytes, in_order, length_fields, phrase_of, placed, status_line, text_with};
ghost use Rattle.mt_http.specs.ReplyWriting.{TextGoesOut, WritesText, field_of_line, fields_of_lines};

use mt_bytes::put_decimal;
use mt_edge::{Sink, SinkFault, write_all};
use mt_types::{Field, Reply, ReplyBody};
use std::alloc::{AllocError, Global};

/// The interim reply (RFC 9110, section 15.2.1).
const INTERIM: &[u8; 25] = b"HTTP/1.1 100 Continue\r\n\r\n";

/// The room that is taken at first for the head of a reply.
const HEAD_ROOM: usize = 512;

/// A body of no more bytes than this goes out in one write with its head.
const JOINED_BODY: usize = 8_192;

/// Why a reply was not written.
#[derive(Clone, Copy, Debug, PartialEq, Eq)]
pub enum ReplyEnd {
    /// The sink failed, and counted it. A front of the reply was written.
    SinkFault,
    /// Out of memory. Nothing was written.
    Memory,
}

// A field line, lent.
#[derive(Clone, Copy)]
struct Line<'a> {
    name: &'a [u8],
    value: &'a [u8],
}

fn phrase(status: u16) -> &'static [u8]
    ensures { result.now ≡ phrase_of status }
{
    match status {
        200 => b"OK",
        201 => b"Created",
        202 => b"Accepted",
        204 => b"No Content",
        206 => b"Partial Content",
        304 => b"Not Modified",
        400 => b"Bad Request",
        403 => b"Forbidden",
        404 => b"Not Found",
        405 => b"Method Not Allowed",
        409 => b"Conflict",
        412 => b"Precondition Failed",
        413 => b"Content Too Large",
        416 => b"Range Not Satisfiable",
        507 => b"Insufficient Storage",
        _ => b"",
    }
}

fn has_body(status: u16) -> bool
    ensures { has_no_body status ≡ not result }
{
    status != 204 && status != 304
}

// Where a line is placed: before the first whose name is above its own.
fn place_of(lines: &[Line<'_>], line: Line<'_>) -> usize
    ensures within { result ≤ length lines.now }
    ensures place { placed (field_of_line line.entry) (fields_of_lines lines.now)
        ≡ insert (fields_of_lines lines.now) result (field_of_line line.entry) }
{
    for (at, other) in lines.iter().enumerate() {
        if line.name.cmp(other.name).is_lt() {
            return at;
        }
    }
    lines.len()
}

// Places a line among those that are in order.
fn place<'a>(lines: &mut Vec<Line<'a>>, line: Line<'a>) -> Result<(), AllocError>
    ensures { OnOk result (fields_of_lines lines.new.items ≡ placed (field_of_line line.entry) (fields_of_lines lines.old.items)) }
{
    let at = place_of(lines.as_slice(), line);
    match lines.insert(at, line) {
        Ok(()) => Ok(()),
        Err(_) => Err(AllocError),
    }
}

// Places the fields of a reply.
fn place_fields<'a>(lines: &mut Vec<Line<'a>>, fields: &'a [Field]) -> Result<(), AllocError>
    ensures { OnOk result (fields_of_lines lines.new.items ≡ fold (λ sorted f. placed f sorted) (fields_of_lines lines.old.items) fields.now) }
{
    for field in fields {
        let line = Line {
            name: field.name.as_bytes(),
            value: field.value.as_slice(),
        };
        place(lines, line)?;
    }
    Ok(())
}

// Places the length of a reply, unless its status has none. These digits tell it.
fn place_length<'a>(
    lines: &mut Vec<Line<'a>>,
    status: u16,
    digits: &'a [u8],
) -> Result<(), AllocError>
    ensures { (n : ℕ) → digits.now ≡ decimal n → OnOk result (fields_of_lines lines.new.items
        ≡ fold (λ sorted f. placed f sorted) (fields_of_lines lines.old.items) (length_fields status n)) }
{
    if !has_body(status) {
        return Ok(());
    }
    let line = Line {
        name: b"content-length",
        value: digits,
    };
    place(lines, line)
}

// Places that the connection closes.
fn place_closing(lines: &mut Vec<Line<'_>>, closes: bool) -> Result<(), AllocError>
    ensures { OnOk result (fields_of_lines lines.new.items
        ≡ fold (λ sorted f. placed f sorted) (fields_of_lines lines.old.items) (closing_fields closes)) }
{
    if !closes {
        return Ok(());
    }
    let line = Line {
        name: b"connection",
        value: b"close",
    };
    place(lines, line)
}

// The lines of a reply, in order. These digits tell its length.
fn lines_of<'a>(
    alloc: Global,
    status: u16,
    fields: &'a [Field],
    closes: bool,
    digits: &'a [u8],
) -> Result<Vec<Line<'a>>, AllocError>
    ensures { (n : ℕ) → digits.now ≡ decimal n → IfOk result (λ lines. fields_of_lines lines.items ≡ in_order (fields_with status fields.now closes n)) }
{
    let mut lines = Vec::new(alloc);
    place_fields(&mut lines, fields)?;
    place_length(&mut lines, status, digits)?;
    place_closing(&mut lines, closes)?;
    Ok(lines)
}

fn put_status(out: &mut Vec<u8>, status: u16) -> Result<(), AllocError>
    ensures { OnOk result (out.new.items ≡ out.old.items ++ status_line status) }
{
    out.extend_from_slice(b"HTTP/1.1 ")?;
    put_decimal(out, status as u64)?;
    out.extend_from_slice(b" ")?;
    out.extend_from_slice(phrase(status))?;
    out.extend_from_slice(b"\r\n")?;
    Ok(())
}

fn put_line(out: &mut Vec<u8>, line: Line<'_>) -> Result<(), AllocError>
    ensures { OnOk result (out.new.items ≡ out.old.items ++ field_line (field_of_line line.entry)) }
{
    out.extend_from_slice(line.name)?;
    out.extend_from_slice(b": ")?;
    out.extend_from_slice(line.value)?;
    out.extend_from_slice(b"\r\n")?;
    Ok(())
}

fn put_lines(out: &mut Vec<u8>, lines: &[Line<'_>]) -> Result<(), AllocError>
    ensures { OnOk result (out.new.items ≡ out.old.items ++ flat_map field_line (fields_of_lines lines.now)) }
{
    for line in lines {
        put_line(out, *line)?;
    }
    Ok(())
}

// The head of a reply whose body has so many bytes.
#[tactic(auto, unfolding(crate::specs::ReplyText::head_text))]
fn text_of_head<B>(alloc: Global, reply: &Reply<B>, size: u64) -> Result<Vec<u8>, AllocError>
    ensures { IfOk result (λ text. text.items ≡ head_text reply.now.status reply.now.fields reply.now.closes size) }
{
    let mut digits = Vec::new(alloc);
    put_decimal(&mut digits, size)?;
    let fields = reply.fields.as_slice();
    let lines = lines_of(alloc, reply.status, fields, reply.closes, digits.as_slice())?;
    let mut out = Vec::with_capacity(alloc, HEAD_ROOM)?;
    put_status(&mut out, reply.status)?;
    put_lines(&mut out, lines.as_slice())?;
    out.extend_from_slice(b"\r\n")?;
    Ok(out)
}

// Writes a text whole.
fn write_text<K: Sink>(sink: &mut K, text: &[u8]) -> Result<(), ReplyEnd>
    ensures { TextGoesOut K.got K.write_faults K.sink_stays sink.old sink.new text.now result }
{
    match write_all(sink, text) {
        Ok(()) => Ok(()),
        Err(_) => Err(ReplyEnd::SinkFault),
    }
}

/// Writes the head of a reply whose body has so many bytes, in one write where the sink takes it. The fields stand
/// in the byte order of their names, `content-length` among them unless the status is 204 or 304, and
/// `connection: close` where the reply closes. Memory is taken for the head alone, and before anything is written.
pub fn write_head<K: Sink, B>(
    alloc: Global,
    sink: &mut K,
    reply: &Reply<B>,
    size: u64,
) -> Result<(), ReplyEnd>
    ensures writes { WritesText (K.got sink.old) (K.write_faults sink.old)
        (head_text reply.now.status reply.now.fields reply.now.closes size)
        result (K.got sink.new) (K.write_faults sink.new) }
    ensures stays { K.sink_stays sink.old sink.new }
{
    match text_of_head(alloc, reply, size) {
        Ok(text) => write_text(sink, text.as_slice()),
        Err(_) => Err(ReplyEnd::Memory),
    }
}

// The bytes that a reply holds.
fn bytes_of<B>(body: &ReplyBody<B>) -> &[u8]
    ensures { result.now ≡ held_bytes body.now }
{
    match body {
        ReplyBody::Held(bytes) => bytes.as_slice(),
        ReplyBody::Part { .. } => &[],
    }
}

/// Writes a reply that holds its body: its head by [`write_head`], and then the body, unless only the head is
/// wanted or the status is 204 or 304. A small body goes out in one write with the head. Memory is taken for the
/// head and such a body, and before anything is written.
pub fn write_reply<K: Sink, B>(
    alloc: Global,
    sink: &mut K,
    reply: &Reply<B>,
    head_only: bool,
) -> Result<(), ReplyEnd>
    requires { IsHeld reply.now.body }
    ensures writes { WritesText (K.got sink.old) (K.write_faults sink.old)
        (text_with reply.now.status reply.now.fields reply.now.closes (held_bytes reply.now.body) head_only)
        result (K.got sink.new) (K.write_faults sink.new) }
    ensures stays { K.sink_stays sink.old sink.new }
{
    let body = bytes_of(&reply.body);
    let mut text = match text_of_head(alloc, reply, body.len() as u64) {
        Ok(text) => text,
        Err(_) => return Err(ReplyEnd::Memory),
    };
    if head_only || !has_body(reply.status) {
        return write_text(sink, text.as_slice());
    }
    if body.len() <= JOINED_BODY {
        return match text.extend_from_slice(body) {
            Ok(()) => write_text(sink, text.as_slice()),
            Err(_) => Err(ReplyEnd::Memory),
        };
    }
    write_both(sink, text.as_slice(), body)
}

// Writes a text and then another.
fn write_both<K: Sink>(sink: &mut K, text: &[u8], body: &[u8]) -> Result<(), ReplyEnd>
    ensures { TextGoesOut K.got K.write_faults K.sink_stays sink.old sink.new (text.now ++ body.now) result }
{
    match write_all(sink, text) {
        Ok(()) => match write_all(sink, body) {
            Ok(()) => Ok(()),
            Err(_) => Err(ReplyEnd::SinkFault),
        },
        Err(_) => Err(ReplyEnd::SinkFault),
    }
}

/// Writes the interim reply, in one write where the sink takes it.
pub fn write_interim<K: Sink>(sink: &mut K) -> Result<(), SinkFault>
    ensures writes { WritesAll (K.got sink.old) (K.write_faults sink.old) interim_line
        result (K.got sink.new) (K.write_faults sink.new) }
    ensures stays { K.sink_stays sink.old sink.new }
{
    write_all(sink, INTERIM)
}
