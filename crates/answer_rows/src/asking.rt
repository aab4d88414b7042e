//! A request and its answer.
ghost use Rattle.std.specs.Prelude.{◌≤◌, length};

use mt_api::{Answered, answer};
use mt_edge::{MemSink, MemSource};
use mt_engine::Engine;
use mt_http::{BodyStream, Ending, Head, limit_of, read_head, write_head, write_reply};
use mt_rows::{Stop, put_escaped, put_lines};
use mt_types::{Body, LAST_MOMENT, Reply, ReplyBody};
use mt_untold::Untold;
use std::alloc::{AllocError, Global};

/// The most bytes of a reply.
const MOST: usize = 300_000;

/// How a reply is printed.
#[derive(Clone, Copy, Debug, PartialEq, Eq)]
pub enum Form {
    /// All of its text, as it is written.
    Whole,
    /// Its status, and the body that it holds or the part that it names.
    Short,
}

/// Answers the request that a source holds, and prints the reply.
pub fn put_answer(
    alloc: Global,
    disk: &mut Untold,
    engine: &mut Engine,
    source: &mut MemSource,
    moment: u64,
    form: Form,
    out: &mut String,
) -> Result<(), Stop> {
    match read_head(alloc, source) {
        Ok(head) => put_answer_to(alloc, disk, engine, &head, source, moment, form, out),
        Err(_) => Err(Stop::NoSuchRow),
    }
}

// The same of a request of this head, whose body the source has next.
fn put_answer_to(
    alloc: Global,
    disk: &mut Untold,
    engine: &mut Engine,
    head: &Head,
    source: &mut MemSource,
    moment: u64,
    form: Form,
    out: &mut String,
) -> Result<(), Stop>
    requires few { length head.now.fields ≤ 100 }
{
    if engine.is_closed() || engine.is_old() || moment > LAST_MOMENT {
        return Err(Stop::NoSuchRow);
    }
    let mut body = BodyStream::new(source, head, limit_of(head));
    match answer(alloc, "l", engine, disk, head, &mut body, moment) {
        Answered::Replied(reply) => put_reply(alloc, disk, engine, head, &reply, form, out),
        Answered::Unfinished(ending) => put_unfinished(engine, ending, out),
        Answered::SourceFault => put_fault(engine, "SourceFault", out),
        Answered::Disk => put_fault(engine, "Disk", out),
        Answered::Memory => Err(Stop::Memory),
    }
}

// How a body ended that isn't whole.
fn put_unfinished(engine: &Engine, ending: Ending, out: &mut String) -> Result<(), Stop> {
    write!(out, "{ending:?}")?;
    put_after(engine, out)
}

// What failed.
fn put_fault(engine: &Engine, fault: &str, out: &mut String) -> Result<(), Stop> {
    out.push_str(fault)?;
    put_after(engine, out)
}

// Where the engine is after an answer.
fn put_after(engine: &Engine, out: &mut String) -> Result<(), Stop> {
    if engine.is_closed() {
        return Ok(out.push_str("; closed")?);
    }
    let (used, position) = (engine.used(), engine.position());
    Ok(write!(out, "; log {used}, position {position}")?)
}

fn put_reply(
    alloc: Global,
    disk: &mut Untold,
    engine: &Engine,
    head: &Head,
    reply: &Reply<Body>,
    form: Form,
    out: &mut String,
) -> Result<(), Stop> {
    write!(out, "{}", reply.status)?;
    match form {
        Form::Whole => {
            put_after(engine, out)?;
            put_text(alloc, disk, engine, head, reply, out)
        }
        Form::Short => {
            put_short(&reply.body, out)?;
            put_after(engine, out)
        }
    }
}

// The body that a reply holds, or the part that it names.
fn put_short(body: &ReplyBody<Body>, out: &mut String) -> Result<(), AllocError> {
    match body {
        ReplyBody::Held(bytes) if bytes.len() > 0 => {
            out.push(' ')?;
            put_escaped(out, bytes.as_slice())
        }
        ReplyBody::Held(_) => Ok(()),
        ReplyBody::Part { from, to, .. } => write!(out, " bytes {from} to {to}"),
    }
}

// The text of a reply, as a connection writes it.
fn put_text(
    alloc: Global,
    disk: &mut Untold,
    engine: &Engine,
    head: &Head,
    reply: &Reply<Body>,
    out: &mut String,
) -> Result<(), Stop> {
    let head_only = head.method.as_str() == "HEAD";
    let mut sink = MemSink::new(alloc, MOST)?;
    send_reply(alloc, disk, engine, reply, head_only, &mut sink)?;
    Ok(put_lines(out, sink.written())?)
}

// Writes a reply to a sink, without its body where it is only its head.
fn send_reply(
    alloc: Global,
    disk: &mut Untold,
    engine: &Engine,
    reply: &Reply<Body>,
    head_only: bool,
    sink: &mut MemSink,
) -> Result<(), Stop> {
    match &reply.body {
        ReplyBody::Held(_) => all(write_reply(alloc, sink, reply, head_only).is_ok()),
        ReplyBody::Part { body, from, to } => {
            if from > to || *to > body.len {
                return Err(Stop::NoSuchRow);
            }
            all(write_head(alloc, sink, reply, *to - *from).is_ok())?;
            if head_only {
                return Ok(());
            }
            all(send_body(alloc, disk, engine, sink, body, *from, *to)?)
        }
    }
}

// All of it has to go out.
fn all(went_out: bool) -> Result<(), Stop> {
    if went_out {
        Ok(())
    } else {
        Err(Stop::NoSuchRow)
    }
}

// Sends a part of a body; whether all of it went out.
fn send_body(
    alloc: Global,
    disk: &mut Untold,
    engine: &Engine,
    sink: &mut MemSink,
    body: &Body,
    from: u64,
    to: u64,
) -> Result<bool, Stop>
    requires order { from ≤ to }
    requires within { to ≤ body.now.len }
{
    if engine.is_closed() {
        return Err(Stop::NoSuchRow);
    }
    let mut buffer = Vec::with_capacity(alloc, 65_536)?;
    buffer.resize(65_536, 0)?;
    let sent = engine.send_body(disk, sink, body, from, to, buffer.as_mut_slice());
    Ok(sent == mt_body::Sent::Whole)
}
