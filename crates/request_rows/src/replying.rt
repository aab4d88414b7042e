//! Replies, as they are written: `NAME closes|stays POSITION MOMENT ..`.
ghost use Rattle.std.specs.Prelude.{◌≤◌, ◌<◌, ◌^◌, IfOk};

use crate::codes::code_named;
use crate::listing;
use mt_edge::MemSink;
use mt_error::{ErrorCode, Methods, Refused};
use mt_http::{write_head, write_reply};
use mt_ident::{LAST_MOMENT, md5_of};
use mt_reply::{
    Stamp, done_reply, error_reply, object_reply, page_reply, part_reply, stored_reply,
    unchanged_reply,
};
use mt_rows::{Row, Stop, put_lines};
use mt_types::{Bytes, Field, NUMBERS_END, Object, Reply, ReplyBody, Sequence, Text};
use std::alloc::{AllocError, Global};

/// The room of a sink, in bytes.
const ROOM: usize = 10_000;

/// Answers a row of this module, or else of the next.
pub fn answer(alloc: Global, row: &Row, out: &mut String) -> Result<(), Stop> {
    let reply = match row.text(0)? {
        "done" => done_reply(alloc, stamp_at(row)?)?,
        "stored" => stored(alloc, row)?,
        "object" => object(alloc, row)?,
        "part" => part(alloc, row)?,
        "unchanged" => unchanged(alloc, row)?,
        "page" => page(alloc, row)?,
        "error" => error_reply(alloc, stamp_at(row)?, refused(row)?)?,
        _ => return listing::answer(alloc, row, out),
    };
    put_reply(alloc, &reply, out)
}

// `unchanged .. NUMBER MTIME`.
fn unchanged(alloc: Global, row: &Row) -> Result<Reply<u64>, Stop> {
    let stamp = stamp_at(row)?;
    let number = number_at(row, 4)?;
    Ok(unchanged_reply(alloc, stamp, number, moment_at(row, 5)?)?)
}

fn moment_at(row: &Row, place: usize) -> Result<u64, Stop>
    ensures { IfOk result (λ moment. moment ≤ LAST_MOMENT) }
{
    let moment = row.number(place)?;
    if moment > LAST_MOMENT {
        return Err(Stop::NoSuchRow);
    }
    Ok(moment)
}

fn number_at(row: &Row, place: usize) -> Result<u64, Stop>
    ensures { IfOk result (λ number. number < 2 ^ 62) }
{
    let number = row.number(place)?;
    if number >= NUMBERS_END {
        return Err(Stop::NoSuchRow);
    }
    Ok(number)
}

fn stamp_at(row: &Row) -> Result<Stamp, Stop>
    ensures { IfOk result (λ stamp. stamp.moment ≤ LAST_MOMENT) }
{
    let closes = match row.text(1)? {
        "closes" => true,
        "stays" => false,
        _ => return Err(Stop::NoSuchRow),
    };
    Ok(Stamp {
        position: row.number(2)?,
        moment: moment_at(row, 3)?,
        closes,
    })
}

// `stored .. NUMBER MTIME TEXT`.
fn stored(alloc: Global, row: &Row) -> Result<Reply<u64>, Stop> {
    let digest = md5_of(row.bytes(6)?);
    let number = number_at(row, 4)?;
    Ok(stored_reply(alloc, stamp_at(row)?, number, moment_at(row, 5)?, &digest)?)
}

// A level of durability, 0 for none.
fn durability(level: u64) -> Option<u8> {
    if level == 0 {
        return None;
    }
    Some((level % 256) as u8)
}

// An object of this type and durability, and of the metadata that stand from a place on.
fn object_at(alloc: Global, row: &Row, place: usize) -> Result<Object<u64>, Stop>
    ensures { IfOk result (λ object. (object.number < 2 ^ 62) × (object.mtime ≤ LAST_MOMENT)) }
{
    let number = number_at(row, place)?;
    let mtime = moment_at(row, place.saturating_add(1))?;
    let level = row.number(place.saturating_add(3))?;
    let content_type = Text::from_str(alloc, row.text(place.saturating_add(2))?)?;
    let metadata = fields_from(alloc, row, place.saturating_add(4))?;
    Ok(Object {
        number,
        body: 5,
        content_type,
        durability: durability(level),
        metadata,
        mtime,
    })
}

// The fields whose names and values stand from a place on.
fn fields_from(alloc: Global, row: &Row, from: usize) -> Result<Sequence<Field>, Stop> {
    let mut fields = Sequence::new(alloc);
    for place in (from..row.len()).step_by(2) {
        fields.push(field_of(alloc, row.text(place)?, row.bytes(place.wrapping_add(1))?)?)?;
    }
    Ok(fields)
}

fn field_of(alloc: Global, name: &str, value: &[u8]) -> Result<Field, AllocError> {
    let name = Text::from_str(alloc, name)?;
    let value = Bytes::from_slice(alloc, value)?;
    Ok(Field { name, value })
}

// `object .. TEXT NUMBER MTIME TYPE LEVEL NAME VALUE ..`, the level 0 for none.
fn object(alloc: Global, row: &Row) -> Result<Reply<u64>, Stop> {
    let text = row.bytes(4)?;
    let object = object_at(alloc, row, 5)?;
    Ok(object_reply(
        alloc,
        stamp_at(row)?,
        &object,
        &md5_of(text),
        text.len() as u64,
    )?)
}

// `part .. FROM TO SIZE NUMBER MTIME TYPE LEVEL NAME VALUE ..`.
fn part(alloc: Global, row: &Row) -> Result<Reply<u64>, Stop> {
    let from = row.number(4)?;
    let to = row.number(5)?;
    if from >= to {
        return Err(Stop::NoSuchRow);
    }
    let object = object_at(alloc, row, 7)?;
    Ok(part_reply(alloc, stamp_at(row)?, &object, from, to, row.number(6)?)?)
}

// `page .. COUNT TEXT`.
fn page(alloc: Global, row: &Row) -> Result<Reply<u64>, Stop> {
    let text = Bytes::from_slice(alloc, row.bytes(5)?)?;
    Ok(page_reply(alloc, stamp_at(row)?, row.number(4)?, text)?)
}

// `error .. NAME`, `error .. NAME METHODS` or `error .. NAME SIZE`.
fn refused(row: &Row) -> Result<Refused, Stop> {
    let Some(code) = code_named(row.text(4)?) else {
        return Err(Stop::NoSuchRow);
    };
    match code {
        ErrorCode::MethodNotAllowed => Ok(Refused::not_allowed(methods_named(row.text(5)?)?)),
        ErrorCode::RangeNotSatisfiable => Ok(Refused::cannot_meet(row.number(5)?)),
        _ => Ok(Refused::plain(code)),
    }
}

fn methods_named(name: &str) -> Result<Methods, Stop> {
    match name {
        "Rows" => Ok(Methods::Rows),
        "Reads" => Ok(Methods::Reads),
        "ReadsAndPosts" => Ok(Methods::ReadsAndPosts),
        "Posts" => Ok(Methods::Posts),
        "Puts" => Ok(Methods::Puts),
        _ => Err(Stop::NoSuchRow),
    }
}

// A reply as it is written; of a part its head, and where the part begins and ends.
fn put_reply(alloc: Global, reply: &Reply<u64>, out: &mut String) -> Result<(), Stop> {
    let mut sink = MemSink::new(alloc, ROOM)?;
    match &reply.body {
        ReplyBody::Held(_) => {
            out.push_str("body held")?;
            let _ = write_reply(alloc, &mut sink, reply, false);
        }
        ReplyBody::Part { body, from, to } => {
            write!(out, "body {body} from {from} to {to}")?;
            let _ = write_head(alloc, &mut sink, reply, to.saturating_sub(*from));
        }
    }
    Ok(put_lines(out, sink.written())?)
}
