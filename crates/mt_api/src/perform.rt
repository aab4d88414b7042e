//! Requests whose body isn't stored.
ghost use Rattle.std.specs.Prelude.{◌≡◌, ◌≤◌, Some, None};
ghost use Rattle.md5.specs.Md5.{md5};
ghost use Rattle.mt_answer.specs.Judging.{len_of, md5_of};
ghost use Rattle.mt_answer.specs.Answer as words;
ghost use Rattle.mt_api.specs.Answered.{Asked, answer_at, used};
ghost use Rattle.mt_api.specs.Steps.{Goes, IsCallOf, IsPlain, Replies, Settles, refusal};
ghost use Rattle.mt_disk.specs.CrashModel.{LeavesOnly};
ghost use Rattle.mt_opening.specs.Current.{IsBetween, IsCurrent};
ghost use Rattle.mt_opening.specs.History.{Bytes, History};
ghost use Rattle.mt_http.specs.BodyReading.{body_left};
ghost use Rattle.mt_model.specs.CommandStep.{replay};
ghost use Rattle.mt_model.specs.State.{State};
ghost use Rattle.mt_request.specs.Digest.{digest_refusal};
ghost use Rattle.mt_api.specs.GoingOn.{AnswerGoesOn, CallIsReady, SettlesCall};

use crate::answered::Answered;
use crate::bodies::{Rest, read_rest};
use crate::call::Call;
use crate::change::{add, adds, reply_at};
use crate::refuse::refuse;
use mt_answer::refusal_of;
use mt_base::LAST_MOMENT;
use mt_disk::Disk;
use mt_edge::Source;
use mt_engine::Engine;
use mt_error::Refused;
use mt_http::BodyStream;
use mt_types::Body;
use std::alloc::{AllocError, Global};

/// The body of a command that has none.
pub(crate) const NO_BODY: Body = Body {
    first: 0,
    len: 0,
    md5: [0; 16],
};

// Answers a call that changes nothing and isn't refused.
fn look(alloc: Global, engine: &Engine, call: &Call) -> Answered
    requires { call.now.stamp.moment ≤ LAST_MOMENT }
    ensures { Replies result (words.reply_to len_of md5_of call.now.stamp engine.now.state.count engine.now.state.rows call.now.conditions call.now.request.doing NO_BODY.md5) }
{
    match reply_at(alloc, engine, call, call.stamp.position, &NO_BODY.md5) {
        Ok(reply) => Answered::Replied(reply),
        Err(AllocError) => Answered::Memory,
    }
}

// Does what is asked for, which isn't refused.
fn carry_out<D: Disk>(alloc: Global, engine: &mut Engine, disk: &mut D, call: Call) -> Answered
    requires ready { CallIsReady D.seen D.may_leave disk.old engine.old call }
    ensures settles { (base : State Bytes) (h : History) (asked : Asked) (bytes : Bytes) → IsCurrent (D.seen disk.old) engine.old base h → IsPlain engine.old call → IsCallOf asked engine.old call →
        refusal engine.old call (Some (md5 bytes)) ≡ None →
        (k : History) × Settles result (answer_at asked engine.old (replay base h) bytes) (used engine.old) base h (D.seen disk.new) engine.new k
        × LeavesOnly D.moment D.left_since disk.old disk.new (IsBetween base h k) }
    ensures settled { SettlesCall D.seen D.may_leave D.faults disk.old disk.new result engine.old engine.new }
{
    if !adds(engine.tree(), &call.request.doing) {
        return look(alloc, engine, &call);
    }
    let run = engine.begin_run(disk);
    add(alloc, engine, disk, run, call, NO_BODY)
}

// Why a call is refused whose body was read, by its digest where that is wanted.
fn refusal_by(engine: &Engine, call: &Call, digest: Option<[u8; 16]>) -> Option<Refused>
    ensures { result ≡ refusal engine.now call.now digest }
{
    match digest {
        Some(digest) => refusal_of(
            &call.request,
            engine.tree(),
            &call.conditions,
            Some(&digest),
        ),
        None => refusal_of(&call.request, engine.tree(), &call.conditions, None),
    }
}

// Answers a call whose body was read and isn't stored, by its digest where that is wanted.
fn judge_unstored<D: Disk>(
    alloc: Global,
    engine: &mut Engine,
    disk: &mut D,
    call: Call,
    digest: Option<[u8; 16]>,
) -> Answered
    requires ready { CallIsReady D.seen D.may_leave disk.old engine.old call }
    ensures settles { (base : State Bytes) (h : History) (asked : Asked) (bytes : Bytes) → IsCurrent (D.seen disk.old) engine.old base h → IsPlain engine.old call → IsCallOf asked engine.old call →
        digest_refusal call.request.wish digest ≡ digest_refusal call.request.wish (Some (md5 bytes)) →
        (k : History) × Settles result (answer_at asked engine.old (replay base h) bytes) (used engine.old) base h (D.seen disk.new) engine.new k
        × LeavesOnly D.moment D.left_since disk.old disk.new (IsBetween base h k) }
    ensures settled { SettlesCall D.seen D.may_leave D.faults disk.old disk.new result engine.old engine.new }
{
    match refusal_by(engine, &call, digest) {
        Some(why) => refuse(alloc, call.stamp, why),
        None => carry_out(alloc, engine, disk, call),
    }
}

/// Answers a call whose body isn't stored: it is refused whatever its body is, or puts no object.
pub(crate) fn answer_unstored<D: Disk, S: Source>(
    alloc: Global,
    engine: &mut Engine,
    disk: &mut D,
    call: Call,
    stream: &mut BodyStream<'_, S>,
) -> Answered
    requires ready { CallIsReady D.seen D.may_leave disk.old engine.old call }
    ensures goes { (base : State Bytes) (h : History) (asked : Asked) → IsCurrent (D.seen disk.old) engine.old base h → IsPlain engine.old call → IsCallOf asked engine.old call →
        (k : History) × Goes result asked engine.old base h (body_left stream.old.framer (S.left stream.old.source.now)) stream.new.framer.stage (D.seen disk.new) engine.new k
        × LeavesOnly D.moment D.left_since disk.old disk.new (IsBetween base h k) }
    ensures goes_on { AnswerGoesOn D.seen D.may_leave D.faults S.left S.read_faults S.source_stays disk.old disk.new stream.old stream.new result engine.old engine.new }
{
    match read_rest(&call.request.wish, stream) {
        Rest::Whole(digest) => judge_unstored(alloc, engine, disk, call, digest),
        Rest::Unfinished(ending) => Answered::Unfinished(ending),
        Rest::SourceFault => Answered::SourceFault,
        Rest::Memory => Answered::Memory,
    }
}
