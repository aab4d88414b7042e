//! The answer to a request.
ghost use Rattle.std.specs.Prelude.{◌≡◌, ◌≤◌, length, IfOk, IfSome, List, Option, ℕ};
ghost use Rattle.mt_answer.specs.Answer.{stamp_of};
ghost use Rattle.mt_api.specs.Answered.{Answers, Hears, said};
ghost use Rattle.mt_api.specs.GoingOn.{AnswerGoesOn};
ghost use Rattle.mt_api.specs.Steps.{Goes, IsCallOf};
ghost use Rattle.mt_disk.specs.CrashModel.{LeavesOnly};
ghost use Rattle.mt_opening.specs.Current.{EngineIsReady, IsBetween, IsCurrent, Serves};
ghost use Rattle.mt_opening.specs.History.{Bytes, History};
ghost use Rattle.mt_http.specs.Body.{Told};
ghost use Rattle.mt_http.specs.BodyReading.{body_left};
ghost use Rattle.mt_model.specs.State.{State};
ghost use Rattle.mt_request.specs.Laws.{FitsDoing};
ghost use Rattle.mt_request.specs.Requests.{asked_of};
ghost use Rattle.mt_request.specs.declared.asked.Asked.TheVariants as head_asks;

use crate::answered::Answered;
use crate::call::{Call, JobCall};
use crate::job::answer_job;
use crate::perform::answer_unstored;
use crate::put::put;
use mt_answer::stores_body;
use mt_base::LAST_MOMENT;
use mt_cond::Conditions;
use mt_disk::Disk;
use mt_edge::Source;
use mt_engine::Engine;
use mt_http::{BodyStream, Head, closes};
use mt_reply::Stamp;
use mt_request::laws::asked_within_limits;
use mt_request::{Asked, Request, asked_of};
use std::alloc::{AllocError, Global};

// What every reply to a head says, with the position before it.
fn stamp_of(engine: &Engine, head: &Head, now: u64) -> Stamp
    ensures { result ≡ stamp_of head.now engine.now.state.count now }
{
    Stamp {
        position: engine.position(),
        moment: now,
        closes: closes(head.minor, head.fields.as_slice()),
    }
}

// What a head asks for of objects and directories.
fn read_call(
    alloc: Global,
    engine: &Engine,
    request: Request,
    head: &Head,
    now: u64,
) -> Result<Call, AllocError>
    ensures call { (login : List ℕ) (body : Option Told) → asked_of login head.now ≡ head_asks.Rows request →
        IfOk result (λ call. IsCallOf (record { login = login; head = head.now; body = body; moment = now }) engine.now call) }
    ensures moment { IfOk result (λ call. call.stamp.moment ≡ now) }
    ensures request { IfOk result (λ call. call.request ≡ request) }
{
    let conditions = Conditions::read(alloc, &head.fields)?;
    let stamp = stamp_of(engine, head, now);
    Ok(Call {
        request,
        conditions,
        stamp,
    })
}

// Answers what is asked of objects and directories. Its body is stored where only its digest or the want of room could still refuse it.
fn answer_rows<D: Disk, S: Source>(
    alloc: Global,
    engine: &mut Engine,
    disk: &mut D,
    request: Request,
    head: &Head,
    body: &mut BodyStream<'_, S>,
    now: u64,
) -> Answered
    requires ready { EngineIsReady D.seen D.may_leave disk.old engine.old }
    requires moment { now ≤ LAST_MOMENT }
    requires fits { FitsDoing request.doing }
    ensures goes { (login : List ℕ) (told : Option Told) (base : State Bytes) (h : History) → IsCurrent (D.seen disk.old) engine.old base h → asked_of login head.now ≡ head_asks.Rows request →
        (k : History) × Goes result (record { login = login; head = head.now; body = told; moment = now }) engine.old base h (body_left body.old.framer (S.left body.old.source.now)) body.new.framer.stage (D.seen disk.new) engine.new k
        × LeavesOnly D.moment D.left_since disk.old disk.new (IsBetween base h k) }
    ensures goes_on { AnswerGoesOn D.seen D.may_leave D.faults S.left S.read_faults S.source_stays disk.old disk.new body.old body.new result engine.old engine.new }
{
    let call = match read_call(alloc, engine, request, head, now) {
        Ok(call) => call,
        Err(AllocError) => return Answered::Memory,
    };
    if stores_body(&call.request, engine.tree(), &call.conditions) {
        put(alloc, engine, disk, call, body)
    } else {
        answer_unstored(alloc, engine, disk, call, body)
    }
}

/// Answers a request at a moment. Its body is read to its end first: that of an object is stored where only its digest or the want of room
/// could still refuse it, a document or lines for a job are held, and any other is dropped. The command that it asks for is on the
/// disk before the reply is given out. The reply is to be sent before the next request is answered.
pub fn answer<D: Disk, S: Source>(
    alloc: Global,
    login: &str,
    engine: &mut Engine,
    disk: &mut D,
    head: &Head,
    body: &mut BodyStream<'_, S>,
    now: u64,
) -> Answered
    requires ready { EngineIsReady D.seen D.may_leave disk.old engine.old }
    requires few { length head.now.fields ≤ 100 }
    requires moment { now ≤ LAST_MOMENT }
    // Of the body, where the source tells it, over any disk.
    ensures hears { IfSome (said body.old.framer (S.left body.old.source.now)) (λ t. Hears result t (S.left body.new.source.now)) }
    // Over a disk that tells what it holds: what the history leads to, and what a crash at any moment of the call leaves.
    ensures answers { (base : State Bytes) (h : History) → IsCurrent (D.seen disk.old) engine.old base h → (k : History)
        × Answers result (record { login = login.now; head = head.now; body = said body.old.framer (S.left body.old.source.now); moment = now })
        engine.old base h (S.left body.new.source.now) (D.seen disk.new) engine.new k
        × LeavesOnly D.moment D.left_since disk.old disk.new (IsBetween base h k) }
    ensures serves { Serves (D.seen disk.new) engine.new }
    ensures goes_on { AnswerGoesOn D.seen D.may_leave D.faults S.left S.read_faults S.source_stays disk.old disk.new body.old body.new result engine.old engine.new }
{
    asked_within_limits();
    let asked = match asked_of(alloc, login, head) {
        Ok(asked) => asked,
        Err(AllocError) => return Answered::Memory,
    };
    match asked {
        Asked::Rows(request) => {
            return answer_rows(alloc, engine, disk, request, head, body, now);
        }
        Asked::Jobs(request) => {
            let stamp = stamp_of(engine, head, now);
            return answer_job(alloc, login, engine, disk, JobCall { request, stamp }, body);
        }
    }
}
