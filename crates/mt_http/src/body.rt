//! The body of a message, held in memory.
ghost use Rattle.std.specs.Prelude.{◌≡◌, ◌<◌, ◌≤◌, IsTrue, length, take, vec_len, IfOk, OnOk};
ghost use Rattle.mt_http.specs.Body.{is_sound};
ghost use Rattle.mt_http.specs.BodyReading.{Finishes, ReadsBehind};
ghost use Rattle.mt_http.specs.Framing.{ReceivesBody, body_of};
ghost use Rattle.mt_http.specs.Framing as said;
ghost use Rattle.mt_http.specs.Further.{FramerGoesOn, taken_by};

use crate::message::{Ending, Head, MessageEnd};
use crate::options::limit_of;
use crate::stage::{Framer, Stage};
use crate::stream::read_framed;
use mt_base::Bytes;
use mt_edge::{ReadStep, Source};
use std::alloc::{AllocError, Global};

/// The room that is made at first for a body whose length is not told.
const FIRST_ROOM: usize = 4_096;

/// No more room is made at once.
const MOST_ROOM: usize = 65_536;

// How much room a body wants behind its first bytes.
fn room_for(done: usize, stage: Stage) -> usize
    requires { IsTrue (is_sound stage) }
    ensures some { 0 < result }
    ensures few { result ≤ 65536 }
{
    match stage {
        Stage::Counted(left) | Stage::Chunk(left) => left.min(MOST_ROOM as u64) as usize,
        _ => done.clamp(FIRST_ROOM, MOST_ROOM),
    }
}

// Makes room behind the first bytes of a body.
fn make_room(body: &mut Vec<u8>, done: usize, stage: Stage) -> Result<(), AllocError>
    requires sound { IsTrue (is_sound stage) }
    requires few { done ≤ vec_len body.old }
    ensures room { OnOk result (done < vec_len body.new) }
    ensures kept { take done body.new.items ≡ take done body.old.items }
{
    if done == body.len() {
        body.resize(done + room_for(done, stage), 0)?;
    }
    Ok(())
}

// Reads more of a body behind its first bytes.
fn read_behind<S: Source>(
    source: &mut S,
    framer: &mut Framer,
    body: &mut [u8],
    done: usize,
) -> ReadStep
    requires { done < length body.old }
    ensures read { ReadsBehind done framer.old (S.left source.old) (S.read_faults source.old) body.old
        result framer.new (S.left source.new) (S.read_faults source.new) body.new }
    ensures goes_on { FramerGoesOn S.source_stays source.old source.new framer.old framer.new (taken_by result) }
{
    read_framed(source, framer, &mut body[done..])
}

// A body that is over, of which so many bytes came.
fn finish(mut body: Vec<u8>, done: usize, framer: &Framer) -> Result<Bytes, MessageEnd>
    requires { done ≤ vec_len body }
    ensures { Finishes (take done body.items) framer.now.stage result }
{
    match framer.stage() {
        Stage::Over(Ending::Whole) => {
            body.truncate(done);
            Ok(Bytes::from_vec(body))
        }
        Stage::Over(Ending::Bad) => Err(MessageEnd::Bad),
        Stage::Over(Ending::TooLarge) => Err(MessageEnd::TooLarge),
        _ => Err(MessageEnd::Truncated),
    }
}

/// Reads the body of a head from the source that stands behind it. It takes memory in proportion to what came,
/// and a piece of at most 64 KiB more.
pub fn read_body<S: Source>(alloc: Global, source: &mut S, head: &Head) -> Result<Bytes, MessageEnd>
    ensures stays { S.source_stays source.old source.new }
    ensures read { ReceivesBody (body_of head.now) (S.left source.old) (S.read_faults source.old)
        result (S.left source.new) (S.read_faults source.new) }
    ensures within { IfOk result (λ body. length body ≤ said.limit_of head.now) }
{
    let mut framer = Framer::new(head.framing, limit_of(head));
    let mut body = Vec::new(alloc);
    let mut done = 0;
    while !framer.is_over() {
        if make_room(&mut body, done, framer.stage()).is_err() {
            return Err(MessageEnd::Memory);
        }
        match read_behind(source, &mut framer, &mut body, done) {
            ReadStep::Took(count) => done += count,
            ReadStep::End => return finish(body, done, &framer),
            ReadStep::Failed => return Err(MessageEnd::SourceFault),
        }
    }
    finish(body, done, &framer)
}
