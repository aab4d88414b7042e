//! A put of an object: its body is stored in a run, which its command ends.
ghost use Rattle.std.specs.Prelude.{◌≡◌, ◌≤◌, ℕ, List, Option, Some};
ghost use Rattle.md5.specs.Md5.{Holds};
ghost use Rattle.mt_api.specs.Answered.{Asked, answer_at, used};
ghost use Rattle.mt_api.specs.Steps.{Goes, HasNoRoom, IsAll, IsCallOf, IsWhole, Settles, StoresBody, refusal, without_room};
ghost use Rattle.mt_disk.specs.CrashModel.{LeavesOnly};
ghost use Rattle.mt_edge.specs.Stream.{LeftAfter};
ghost use Rattle.mt_opening.specs.Current.{IsBetween, IsCurrent};
ghost use Rattle.mt_opening.specs.History.{Bytes, History};
ghost use Rattle.mt_http.specs.BodyReading.{body_left};
ghost use Rattle.mt_model.specs.CommandStep.{replay};
ghost use Rattle.mt_model.specs.State.{State};
ghost use Rattle.mt_api.specs.GoingOn.{AnswerGoesOn, CallInRun, CallIsReady, SettlesInRun};
ghost use Rattle.mt_engine.specs.Ready.{RunIsReady};

use crate::answered::Answered;
use crate::bodies::{BodyEnd, digest_body, end_body};
use crate::call::Call;
use crate::change::add;
use crate::refuse::{end_with, refuse_in};
use md5::{Digest, Md5};
use mt_answer::refusal_of;
use mt_base::LAST_MOMENT;
use mt_body::Storing;
use mt_disk::Disk;
use mt_edge::Source;
use mt_engine::Engine;
use mt_error::{ErrorCode, Refused};
use mt_http::BodyStream;
use mt_log::Run;
use mt_types::Body;
use std::alloc::Global;

// Why a put is refused whose body has no room: its digest comes first.
fn refusal_without_room(engine: &Engine, call: &Call, digest: &[u8; 16]) -> Refused
    ensures { result ≡ without_room (refusal engine.now call.now (Some digest.now)) }
{
    match refusal_of(&call.request, engine.tree(), &call.conditions, Some(digest)) {
        Some(refused) => refused,
        None => Refused::plain(ErrorCode::NotEnoughSpace),
    }
}

// Answers a put whose body is stored in a run: its digest is judged, and the command added.
fn judge_digest<D: Disk>(
    alloc: Global,
    engine: &mut Engine,
    disk: &mut D,
    run: Run,
    call: Call,
    body: Body,
) -> Answered
    requires ready { CallInRun D.seen D.may_leave disk.old engine.old run call body }
    requires stores { StoresBody engine.old call }
    ensures settles { (base : State Bytes) (h : History) (qs : List (List ℕ)) (asked : Asked) (bytes : Bytes) → IsCallOf asked engine.old call →
        IsWhole (D.seen disk.old) engine.old run base h qs body bytes →
        (k : History) × Settles result (answer_at asked engine.old (replay base h) bytes) (used engine.old) base h (D.seen disk.new) engine.new k
        × LeavesOnly D.moment D.left_since disk.old disk.new (IsBetween base h k) }
    ensures settled { SettlesInRun D.seen D.may_leave D.faults disk.old disk.new result engine.old engine.new }
{
    match refusal_of(
        &call.request,
        engine.tree(),
        &call.conditions,
        Some(&body.md5),
    ) {
        Some(refused) => refuse_in(alloc, engine, disk, run, call.stamp, refused),
        None => add(alloc, engine, disk, run, call, body),
    }
}

// Answers a put all of whose bytes are in its run, once its body is known to be whole.
fn finish_body<D: Disk, S: Source>(
    alloc: Global,
    engine: &mut Engine,
    disk: &mut D,
    run: Run,
    call: Call,
    stream: &mut BodyStream<'_, S>,
    body: Body,
) -> Answered
    requires ready { CallInRun D.seen D.may_leave disk.old engine.old run call body }
    requires stores { StoresBody engine.old call }
    ensures goes { (base : State Bytes) (h : History) (qs : List (List ℕ)) (asked : Asked) (left : Option (List ℕ)) (bytes : Bytes) → IsCallOf asked engine.old call →
        IsWhole (D.seen disk.old) engine.old run base h qs body bytes → IsAll left bytes →
        (k : History) × Goes result asked engine.old base h left stream.new.framer.stage (D.seen disk.new) engine.new k
        × LeavesOnly D.moment D.left_since disk.old disk.new (IsBetween base h k) }
    ensures goes_on { AnswerGoesOn D.seen D.may_leave D.faults S.left S.read_faults S.source_stays disk.old disk.new stream.old stream.new result engine.old engine.new }
{
    match end_body(stream) {
        BodyEnd::Whole => judge_digest(alloc, engine, disk, run, call, body),
        BodyEnd::Unfinished(ending) => end_with(engine, disk, run, Answered::Unfinished(ending)),
        BodyEnd::SourceFault => end_with(engine, disk, run, Answered::SourceFault),
        BodyEnd::Endless => unreachable!(),
    }
}

// Answers a put whose body has no room: the rest of it is read, and its digest judged. The pieces that had room stay.
fn refuse_for_room<D: Disk, S: Source>(
    alloc: Global,
    engine: &mut Engine,
    disk: &mut D,
    run: Run,
    call: Call,
    stream: &mut BodyStream<'_, S>,
    mut sum: Md5,
) -> Answered
    requires ready { RunIsReady D.seen D.may_leave disk.old engine.old run }
    requires moment { call.stamp.moment ≤ LAST_MOMENT }
    requires stores { StoresBody engine.old call }
    ensures goes { (base : State Bytes) (h : History) (qs : List (List ℕ)) (asked : Asked) (left : Option (List ℕ)) (bytes : Bytes) → IsCallOf asked engine.old call →
        HasNoRoom (D.seen disk.old) engine.old run base h qs bytes → Holds sum bytes →
        LeftAfter left bytes (body_left stream.old.framer (S.left stream.old.source.now)) →
        (k : History) × Goes result asked engine.old base h left stream.new.framer.stage (D.seen disk.new) engine.new k
        × LeavesOnly D.moment D.left_since disk.old disk.new (IsBetween base h k) }
    ensures goes_on { AnswerGoesOn D.seen D.may_leave D.faults S.left S.read_faults S.source_stays disk.old disk.new stream.old stream.new result engine.old engine.new }
{
    match digest_body(stream, &mut sum) {
        BodyEnd::Whole => {
            let why = refusal_without_room(engine, &call, &sum.finalize());
            refuse_in(alloc, engine, disk, run, call.stamp, why)
        }
        BodyEnd::Unfinished(ending) => end_with(engine, disk, run, Answered::Unfinished(ending)),
        BodyEnd::SourceFault => end_with(engine, disk, run, Answered::SourceFault),
        // never: a body has its limit
        BodyEnd::Endless => end_with(engine, disk, run, Answered::Memory),
    }
}

/// Answers a put that only the digest of its body or the want of room could still refuse.
pub(crate) fn put<D: Disk, S: Source>(
    alloc: Global,
    engine: &mut Engine,
    disk: &mut D,
    call: Call,
    stream: &mut BodyStream<'_, S>,
) -> Answered
    requires ready { CallIsReady D.seen D.may_leave disk.old engine.old call }
    requires stores { StoresBody engine.old call }
    ensures goes { (base : State Bytes) (h : History) (asked : Asked) → IsCurrent (D.seen disk.old) engine.old base h → IsCallOf asked engine.old call →
        (k : History) × Goes result asked engine.old base h (body_left stream.old.framer (S.left stream.old.source.now)) stream.new.framer.stage (D.seen disk.new) engine.new k
        × LeavesOnly D.moment D.left_since disk.old disk.new (IsBetween base h k) }
    ensures goes_on { AnswerGoesOn D.seen D.may_leave D.faults S.left S.read_faults S.source_stays disk.old disk.new stream.old stream.new result engine.old engine.new }
{
    let mut run = engine.begin_run(disk);
    let mut sum = Md5::new();
    // a log that was opened above its limit takes nothing
    if engine.used() > engine.limit() {
        return refuse_for_room(alloc, engine, disk, run, call, stream, sum);
    }
    match engine.store_body(alloc, disk, &mut run, stream, &mut sum) {
        Storing::Stored(body) => finish_body(alloc, engine, disk, run, call, stream, body),
        Storing::Full => refuse_for_room(alloc, engine, disk, run, call, stream, sum),
        Storing::SourceFault => end_with(engine, disk, run, Answered::SourceFault),
        Storing::Disk => Answered::Disk,
        Storing::Memory => Answered::Memory,
    }
}
