//! The reply to a message.
ghost use Rattle.std.specs.Prelude.{◌≡◌, ◌≤◌, ◌<◌, ◌-◌, ◌++◌, ◌⊎◌, ℕ, List, Option, length, IfOk, IfErr, IsErrOf};
ghost use Rattle.mt_base.specs.Counts.{NeverFell, Rose};
ghost use Rattle.mt_body.specs.Sending as part;
ghost use Rattle.mt_disk.specs.CrashModel.{OnlyRead};
ghost use Rattle.mt_edge.specs.Stream.{GotMore};
ghost use Rattle.mt_opening.specs.History.{Bytes};
ghost use Rattle.mt_opening.specs.Looking.{BodyIsThere, LogIsThere, OnlyReads};
ghost use Rattle.mt_http.specs.Options as options;
ghost use Rattle.mt_http.specs.ReplyText.{head_text};
ghost use Rattle.mt_http.specs.ReplyWriting.{WritesText};
ghost use Rattle.mt_types.specs.declared.reply.ReplyBody.TheVariants.{Part};
ghost use Rattle.mt_connection.specs.Steps.{CanBeRead, IsBodyOf, Loads, Sends, text_to};
ghost use Rattle.mt_connection.specs.Transcript as words;

use crate::end::{ConnectionEnd, Step};
use mt_base::{Bytes, zeros};
use mt_body::Sent;
use mt_disk::Disk;
use mt_edge::Sink;
use mt_engine::Engine;
use mt_http::{Head, ReplyEnd, closes, write_head, write_reply};
use mt_types::{Body, Reply, ReplyBody};
use std::alloc::{AllocError, Global};

/// A part of a body is sent by pieces of at most so many bytes.
const PIECE: u64 = 65_536;

/// A part of at most so many bytes goes out in one write with the head.
const SMALL: u64 = 8_192;

fn is_head(head: &Head) -> bool
    ensures { result ≡ words.is_head head.now }
{
    head.method.as_str() == "HEAD"
}

// What the writing of a whole text makes of its exchange.
fn step_of(wrote: Result<(), ReplyEnd>, closing: bool) -> Step
    ensures { (text : Bytes) (got got' : Option Bytes) (w w' d : ℕ) → WritesText got w text wrote got' w' → Sends closing text result got got' w w' d d }
{
    match wrote {
        Ok(()) => Step::Went(closing),
        Err(ReplyEnd::SinkFault) => Step::Over(ConnectionEnd::SinkFault),
        Err(ReplyEnd::Memory) => Step::Over(ConnectionEnd::Memory),
    }
}

// What the sending of a body behind its head makes of their exchange.
fn step_of_body(sent: Sent, closing: bool) -> Step
    ensures { (head body : Bytes) (got mid got' : Option Bytes) (w v w' d d' : ℕ) → GotMore got head mid → NeverFell w v → part.Sends sent body mid got' v w' →
        (sent ≡ Sent.Disk → Rose d d') → NeverFell d d' → Sends closing (head ++ body) result got got' w w' d d' }
{
    match sent {
        Sent::Whole => Step::Went(closing),
        Sent::SinkFault => Step::Over(ConnectionEnd::SinkFault),
        Sent::Disk => Step::Over(ConnectionEnd::Disk),
    }
}

// Whether the reply of this status to this head has no body (RFC 9110, section 6.4.1).
fn is_bare(status: u16, head: &Head) -> bool
    ensures { result ≡ words.is_bare status head.now }
{
    is_head(head) || status == 204 || status == 304
}

// The bytes of a part of a body.
fn part_of<D: Disk>(
    alloc: Global,
    engine: &Engine,
    disk: &mut D,
    body: &Body,
    from: u64,
    to: u64,
) -> Result<Bytes, ConnectionEnd>
    requires ready { BodyIsThere D.seen disk.old engine.now.log body.now }
    requires part { (from ≤ to) × (to ≤ body.now.len) }
    ensures ok { IfOk result (λ bytes. IsBodyOf (D.seen disk.old) (Part body.now from to) bytes) }
    ensures ends { IfErr result (λ end. (end ≡ ConnectionEnd.Memory) ⊎ ((end ≡ ConnectionEnd.Disk) × Rose (D.faults disk.old) (D.faults disk.new))) }
    ensures reads { OnlyReads D.seen D.may_leave D.moment D.left_since D.faults disk.old disk.new (IsErrOf result ConnectionEnd.Disk) }
{
    let mut bytes = match zeros(alloc, (to - from) as usize) {
        Ok(bytes) => bytes,
        Err(AllocError) => return Err(ConnectionEnd::Memory),
    };
    match engine.read_body(disk, body, from, bytes.as_mut_slice()) {
        Ok(()) => Ok(Bytes::from_vec(bytes)),
        Err(_) => Err(ConnectionEnd::Disk),
    }
}

// Sends a reply whose body is a part of one in the log. The buffer is taken before anything is written.
fn send_part<D: Disk, K: Sink>(
    alloc: Global,
    engine: &Engine,
    disk: &mut D,
    sink: &mut K,
    reply: &Reply<Body>,
    body: &Body,
    from: u64,
    to: u64,
    closing: bool,
) -> Step
    requires ready { BodyIsThere D.seen disk.old engine.now.log body.now }
    requires part { (from ≤ to) × (to ≤ body.now.len) }
    ensures sends { (bytes : Bytes) × IsBodyOf (D.seen disk.old) (Part body.now from to) bytes × Sends closing (head_text reply.now.status reply.now.fields reply.now.closes (to - from) ++ bytes) result
        (K.got sink.old) (K.got sink.new) (K.write_faults sink.old) (K.write_faults sink.new) (D.faults disk.old) (D.faults disk.new) }
    ensures read { OnlyRead D.seen D.may_leave D.moment D.left_since disk.old disk.new }
    ensures stays { K.sink_stays sink.old sink.new }
{
    let size = to - from;
    let mut buffer = match zeros(alloc, size.clamp(1, PIECE) as usize) {
        Ok(buffer) => buffer,
        Err(AllocError) => return Step::Over(ConnectionEnd::Memory),
    };
    match write_head(alloc, sink, reply, size) {
        Ok(()) => {
            let sent = engine.send_body(disk, sink, body, from, to, buffer.as_mut_slice());
            step_of_body(sent, closing)
        }
        Err(ReplyEnd::SinkFault) => Step::Over(ConnectionEnd::SinkFault),
        Err(ReplyEnd::Memory) => Step::Over(ConnectionEnd::Memory),
    }
}

// Sends a reply: its head, and its body unless the request is a HEAD or the status has none.
fn send<D: Disk, K: Sink>(
    alloc: Global,
    engine: &Engine,
    disk: &mut D,
    sink: &mut K,
    reply: &Reply<Body>,
    head: &Head,
) -> Step
    requires ready { LogIsThere D.seen disk.old engine.now.log }
    requires shown { CanBeRead (D.seen disk.old) reply.now.body }
    ensures sends { (body : Bytes) × IsBodyOf (D.seen disk.old) reply.now.body body × Sends (options.closes head.now.minor head.now.fields) (text_to reply.now body head.now) result
        (K.got sink.old) (K.got sink.new) (K.write_faults sink.old) (K.write_faults sink.new) (D.faults disk.old) (D.faults disk.new) }
    ensures read { OnlyRead D.seen D.may_leave D.moment D.left_since disk.old disk.new }
    ensures stays { K.sink_stays sink.old sink.new }
{
    let closing = closes(head.minor, head.fields.as_slice());
    match &reply.body {
        ReplyBody::Held(_) => step_of(write_reply(alloc, sink, reply, is_head(head)), closing),
        ReplyBody::Part { body, from, to } => {
            if is_bare(reply.status, head) {
                step_of(write_head(alloc, sink, reply, to - from), closing)
            } else {
                send_part(alloc, engine, disk, sink, reply, body, *from, *to, closing)
            }
        }
    }
}

// Whether the body of a reply is a part that is sent, and small enough to go out in one write with the head.
fn is_small(reply: &Reply<Body>, head: &Head) -> bool {
    match &reply.body {
        ReplyBody::Held(_) => false,
        ReplyBody::Part { from, to, .. } => {
            to.saturating_sub(*from) <= SMALL && !is_bare(reply.status, head)
        }
    }
}

// Reads the part of a body that a reply has, which it then holds.
fn loaded<D: Disk>(
    alloc: Global,
    engine: &Engine,
    disk: &mut D,
    reply: Reply<Body>,
) -> Result<Reply<Body>, ConnectionEnd>
    requires ready { LogIsThere D.seen disk.old engine.now.log }
    requires shown { CanBeRead (D.seen disk.old) reply.body }
    ensures ok { IfOk result (λ held. Loads (D.seen disk.old) reply held) }
    ensures ends { IfErr result (λ end. (end ≡ ConnectionEnd.Memory) ⊎ ((end ≡ ConnectionEnd.Disk) × Rose (D.faults disk.old) (D.faults disk.new))) }
    ensures reads { OnlyReads D.seen D.may_leave D.moment D.left_since D.faults disk.old disk.new (IsErrOf result ConnectionEnd.Disk) }
{
    let Reply {
        status,
        fields,
        body,
        closes,
    } = reply;
    let bytes = match body {
        ReplyBody::Held(bytes) => bytes,
        ReplyBody::Part { body, from, to } => part_of(alloc, engine, disk, &body, from, to)?,
    };
    Ok(Reply {
        status,
        fields,
        body: ReplyBody::Held(bytes),
        closes,
    })
}

/// Sends a reply: its head, and its body unless the request is a HEAD or the status has none. A small part of a body in the log goes
/// out in one write with the head.
pub(crate) fn respond<D: Disk, K: Sink>(
    alloc: Global,
    engine: &Engine,
    disk: &mut D,
    sink: &mut K,
    reply: Reply<Body>,
    head: &Head,
) -> Step
    requires ready { LogIsThere D.seen disk.old engine.now.log }
    requires shown { CanBeRead (D.seen disk.old) reply.body }
    ensures sends { (body : Bytes) × IsBodyOf (D.seen disk.old) reply.body body × Sends (options.closes head.now.minor head.now.fields) (text_to reply body head.now) result
        (K.got sink.old) (K.got sink.new) (K.write_faults sink.old) (K.write_faults sink.new) (D.faults disk.old) (D.faults disk.new) }
    ensures read { OnlyRead D.seen D.may_leave D.moment D.left_since disk.old disk.new }
    ensures stays { K.sink_stays sink.old sink.new }
{
    if !is_small(&reply, head) {
        return send(alloc, engine, disk, sink, &reply, head);
    }
    match loaded(alloc, engine, disk, reply) {
        Ok(held) => send(alloc, engine, disk, sink, &held, head),
        Err(end) => Step::Over(end),
    }
}
