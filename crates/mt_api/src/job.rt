//! What is asked of jobs.
ghost use Rattle.std.specs.Prelude.{◌≡◌, ◌≤◌, ◌<◌, ◌^◌, ℕ, List, Option, Some, None, IfOk, false, length};
ghost use Rattle.md5.specs.Md5.{md5};
ghost use Rattle.mt_answer.specs.JobAnswer.{job_reply_to};
ghost use Rattle.mt_answer.specs.JobLaws.{FitsPosted, NamesNumber};
ghost use Rattle.mt_answer.specs.Posting.{posted_of};
ghost use Rattle.mt_api.specs.Answered.{Asked, answer_at, used};
ghost use Rattle.mt_api.specs.GoingOn.{AnswerGoesOn, SettlesCall};
ghost use Rattle.mt_api.specs.Jobs.{AsksFor, IsJobCallOf, JobCallIsReady, JobIsTaken, cancelled_job, holds_body, job_refusal};
ghost use Rattle.mt_api.specs.Steps.{Goes, Replies, Settles};
ghost use Rattle.mt_disk.specs.CrashModel.{LeavesOnly};
ghost use Rattle.mt_opening.specs.Current.{IsBetween, IsCurrent};
ghost use Rattle.mt_opening.specs.History.{Bytes, History};
ghost use Rattle.mt_http.specs.BodyReading.{body_left};
ghost use Rattle.mt_model.specs.CommandStep.{replay};
ghost use Rattle.mt_model.specs.State.{State};
ghost use Rattle.mt_request.specs.Digest.{digest_refusal};

use crate::answered::Answered;
use crate::bodies::{Rest, read_rest};
use crate::call::JobCall;
use crate::cancel::cancel;
use crate::hold::{Held, hold_body};
use crate::job_change::{add_job, job_reply_at};
use crate::refuse::refuse;
use md5::{Digest, Md5};
use mt_answer::job_laws::{job_done_is_allowed, posted_is_within};
use mt_answer::{Posted, job_command_of, job_refusal_of, posted_of};
use mt_base::{Bytes, LAST_MOMENT};
use mt_disk::Disk;
use mt_edge::Source;
use mt_engine::Engine;
use mt_error::Refused;
use mt_http::BodyStream;
use mt_request::{JobDoing, JobRequest, Wish};
use std::alloc::{AllocError, Global};

/// A body that is held has at most so many bytes. Messages have their limit far below.
const MOST_HELD: usize = 4_294_967_295;

// What a body asks for that was held, and its digest where that is wanted.
#[derive(Drop)]
struct Told {
    posted: Posted,
    digest: Option<[u8; 16]>,
}

// The digest of a body, where it is wanted.
fn digest_wanted(wish: &Wish, bytes: &[u8]) -> Option<[u8; 16]>
    ensures { digest_refusal wish.now result ≡ digest_refusal wish.now (Some (md5 bytes.now)) }
{
    match wish {
        Wish::Wants(_) => {
            let mut sum = Md5::new();
            sum.update(bytes);
            Some(sum.finalize())
        }
        Wish::None => None,
        Wish::Unreadable => None,
    }
}

// Reads a body that was held, which is let go.
fn read_told(
    alloc: Global,
    login: &str,
    request: &JobRequest,
    bytes: Bytes,
) -> Result<Told, AllocError>
    ensures posted { IfOk result (λ told. told.posted ≡ posted_of login.now request.now.doing bytes) }
    ensures digest { IfOk result (λ told. digest_refusal request.now.wish told.digest ≡ digest_refusal request.now.wish (Some (md5 bytes))) }
    ensures fits { IfOk result (λ told. FitsPosted told.posted) }
{
    if bytes.len() > MOST_HELD {
        return Err(AllocError);
    }
    posted_is_within();
    let posted = posted_of(alloc, login, &request.doing, bytes.as_slice())?;
    let digest = digest_wanted(&request.wish, bytes.as_slice());
    Ok(Told { posted, digest })
}

// Why what is asked is refused, by what its body asks for and, where it is wanted, its digest.
fn refusal_by(
    engine: &Engine,
    request: &JobRequest,
    posted: &Posted,
    digest: Option<[u8; 16]>,
) -> Option<Refused>
    ensures { result ≡ job_refusal engine.now request.now posted.now digest }
{
    match digest {
        Some(digest) => job_refusal_of(
            request,
            engine.tree(),
            engine.jobs(),
            posted,
            Some(&digest),
        ),
        None => job_refusal_of(request, engine.tree(), engine.jobs(), posted, None),
    }
}

// Answers what only looks and isn't refused.
fn look_job(alloc: Global, login: &str, engine: &Engine, call: &JobCall) -> Answered
    requires { call.now.stamp.moment ≤ LAST_MOMENT }
    ensures { Replies result (job_reply_to login.now call.now.stamp engine.now.state call.now.request.doing) }
{
    match job_reply_at(alloc, login, engine, call, call.stamp.position) {
        Ok(reply) => Answered::Replied(reply),
        Err(AllocError) => Answered::Memory,
    }
}

// The job that is to be cancelled.
fn cancelled_job(doing: &JobDoing) -> Option<u64>
    ensures { result ≡ cancelled_job doing.now }
{
    match doing {
        JobDoing::CancelJob { job } => *job,
        JobDoing::MakeJob
        | JobDoing::PostLines { .. }
        | JobDoing::EndInput { .. }
        | JobDoing::LookLive { .. }
        | JobDoing::ListJobs { .. } => None,
    }
}

// Does what is asked, which isn't refused and cancels no job.
fn change_or_look<D: Disk>(
    alloc: Global,
    login: &str,
    engine: &mut Engine,
    disk: &mut D,
    call: JobCall,
    posted: Posted,
) -> Answered
    requires ready { JobCallIsReady D.seen D.may_leave disk.old engine.old call }
    requires fits { FitsPosted posted }
    requires names { NamesNumber call.request.doing }
    requires stays { cancelled_job call.request.doing ≡ None }
    ensures settles { (base : State Bytes) (h : History) (asked : Asked) (bytes : Bytes) → IsCurrent (D.seen disk.old) engine.old base h → IsJobCallOf login.now asked engine.old call →
        posted ≡ posted_of login.now call.request.doing bytes → job_refusal engine.old call.request posted (Some (md5 bytes)) ≡ None →
        (k : History) × Settles result (answer_at asked engine.old (replay base h) bytes) (used engine.old) base h (D.seen disk.new) engine.new k
        × LeavesOnly D.moment D.left_since disk.old disk.new (IsBetween base h k) }
    ensures settled { SettlesCall D.seen D.may_leave D.faults disk.old disk.new result engine.old engine.new }
{
    match job_command_of(&call.request.doing, posted, None, call.stamp.moment) {
        Some(command) => {
            let run = engine.begin_run(disk);
            return add_job(alloc, login, engine, disk, run, call, command);
        }
        None => return look_job(alloc, login, engine, &call),
    }
}

// Does what is asked, which isn't refused.
fn carry_out_job<D: Disk>(
    alloc: Global,
    login: &str,
    engine: &mut Engine,
    disk: &mut D,
    call: JobCall,
    posted: Posted,
) -> Answered
    requires ready { JobCallIsReady D.seen D.may_leave disk.old engine.old call }
    requires fits { FitsPosted posted }
    requires is_taken { JobIsTaken engine.old call.request posted }
    ensures settles { (base : State Bytes) (h : History) (asked : Asked) (bytes : Bytes) → IsCurrent (D.seen disk.old) engine.old base h → IsJobCallOf login.now asked engine.old call →
        posted ≡ posted_of login.now call.request.doing bytes → job_refusal engine.old call.request posted (Some (md5 bytes)) ≡ None →
        (k : History) × Settles result (answer_at asked engine.old (replay base h) bytes) (used engine.old) base h (D.seen disk.new) engine.new k
        × LeavesOnly D.moment D.left_since disk.old disk.new (IsBetween base h k) }
    ensures settled { SettlesCall D.seen D.may_leave D.faults disk.old disk.new result engine.old engine.new }
{
    job_done_is_allowed();
    // a lawful state, with so many commands
    let _ = engine.position();
    let _ = engine.jobs();
    match cancelled_job(&call.request.doing) {
        Some(job) => return cancel(alloc, login, engine, disk, call, job),
        None => return change_or_look(alloc, login, engine, disk, call, posted),
    }
}

// Answers what is asked, by what its body asks for and, where it is wanted, its digest.
fn judge_job<D: Disk>(
    alloc: Global,
    login: &str,
    engine: &mut Engine,
    disk: &mut D,
    call: JobCall,
    posted: Posted,
    digest: Option<[u8; 16]>,
) -> Answered
    requires ready { JobCallIsReady D.seen D.may_leave disk.old engine.old call }
    requires fits { FitsPosted posted }
    ensures settles { (base : State Bytes) (h : History) (asked : Asked) (bytes : Bytes) → IsCurrent (D.seen disk.old) engine.old base h → IsJobCallOf login.now asked engine.old call →
        AsksFor login.now call.request posted bytes → digest_refusal call.request.wish digest ≡ digest_refusal call.request.wish (Some (md5 bytes)) →
        (k : History) × Settles result (answer_at asked engine.old (replay base h) bytes) (used engine.old) base h (D.seen disk.new) engine.new k
        × LeavesOnly D.moment D.left_since disk.old disk.new (IsBetween base h k) }
    ensures settled { SettlesCall D.seen D.may_leave D.faults disk.old disk.new result engine.old engine.new }
{
    match refusal_by(engine, &call.request, &posted, digest) {
        Some(why) => return refuse(alloc, call.stamp, why),
        None => return carry_out_job(alloc, login, engine, disk, call, posted),
    }
}

// Answers what is asked, whose body was held.
fn judge_held<D: Disk>(
    alloc: Global,
    login: &str,
    engine: &mut Engine,
    disk: &mut D,
    call: JobCall,
    bytes: Bytes,
) -> Answered
    requires { JobCallIsReady D.seen D.may_leave disk.old engine.old call }
    ensures settles { (base : State Bytes) (h : History) (asked : Asked) → IsCurrent (D.seen disk.old) engine.old base h → IsJobCallOf login.now asked engine.old call →
        (k : History) × Settles result (answer_at asked engine.old (replay base h) bytes) (used engine.old) base h (D.seen disk.new) engine.new k
        × LeavesOnly D.moment D.left_since disk.old disk.new (IsBetween base h k) }
    ensures settled { SettlesCall D.seen D.may_leave D.faults disk.old disk.new result engine.old engine.new }
{
    match read_told(alloc, login, &call.request, bytes) {
        Ok(told) => {
            return judge_job(alloc, login, engine, disk, call, told.posted, told.digest);
        }
        Err(AllocError) => return Answered::Memory,
    }
}

// Answers what is asked, whose body is a document or lines, and is held.
fn answer_held<D: Disk, S: Source>(
    alloc: Global,
    login: &str,
    engine: &mut Engine,
    disk: &mut D,
    call: JobCall,
    stream: &mut BodyStream<'_, S>,
) -> Answered
    requires { JobCallIsReady D.seen D.may_leave disk.old engine.old call }
    ensures goes { (base : State Bytes) (h : History) (asked : Asked) → IsCurrent (D.seen disk.old) engine.old base h → IsJobCallOf login.now asked engine.old call →
        (k : History) × Goes result asked engine.old base h (body_left stream.old.framer (S.left stream.old.source.now)) stream.new.framer.stage (D.seen disk.new) engine.new k
        × LeavesOnly D.moment D.left_since disk.old disk.new (IsBetween base h k) }
    ensures goes_on { AnswerGoesOn D.seen D.may_leave D.faults S.left S.read_faults S.source_stays disk.old disk.new stream.old stream.new result engine.old engine.new }
{
    match hold_body(alloc, stream) {
        Held::Whole(bytes) => return judge_held(alloc, login, engine, disk, call, bytes),
        Held::Unfinished(ending) => return Answered::Unfinished(ending),
        Held::SourceFault => return Answered::SourceFault,
        Held::Memory => return Answered::Memory,
    }
}

// Answers what is asked, whose body isn't looked at, or refused whatever it is.
fn answer_dropped<D: Disk, S: Source>(
    alloc: Global,
    login: &str,
    engine: &mut Engine,
    disk: &mut D,
    call: JobCall,
    stream: &mut BodyStream<'_, S>,
) -> Answered
    requires ready { JobCallIsReady D.seen D.may_leave disk.old engine.old call }
    requires dropped { holds_body call.request ≡ false }
    ensures goes { (base : State Bytes) (h : History) (asked : Asked) → IsCurrent (D.seen disk.old) engine.old base h → IsJobCallOf login.now asked engine.old call →
        (k : History) × Goes result asked engine.old base h (body_left stream.old.framer (S.left stream.old.source.now)) stream.new.framer.stage (D.seen disk.new) engine.new k
        × LeavesOnly D.moment D.left_since disk.old disk.new (IsBetween base h k) }
    ensures goes_on { AnswerGoesOn D.seen D.may_leave D.faults S.left S.read_faults S.source_stays disk.old disk.new stream.old stream.new result engine.old engine.new }
{
    match read_rest(&call.request.wish, stream) {
        Rest::Whole(digest) => {
            return judge_job(alloc, login, engine, disk, call, Posted::Nothing, digest);
        }
        Rest::Unfinished(ending) => return Answered::Unfinished(ending),
        Rest::SourceFault => return Answered::SourceFault,
        Rest::Memory => return Answered::Memory,
    }
}

// Whether the body is a document or lines, and not refused whatever it is.
fn holds_body(request: &JobRequest) -> bool
    ensures { result ≡ holds_body request.now }
{
    request.doing.is_posting() && request.refusal(None).is_none()
}

/// Answers what is asked of jobs. A document, and lines, are held in memory, where their head isn't refused; any other body is dropped.
pub(crate) fn answer_job<D: Disk, S: Source>(
    alloc: Global,
    login: &str,
    engine: &mut Engine,
    disk: &mut D,
    call: JobCall,
    stream: &mut BodyStream<'_, S>,
) -> Answered
    requires { JobCallIsReady D.seen D.may_leave disk.old engine.old call }
    ensures goes { (base : State Bytes) (h : History) (asked : Asked) → IsCurrent (D.seen disk.old) engine.old base h → IsJobCallOf login.now asked engine.old call →
        (k : History) × Goes result asked engine.old base h (body_left stream.old.framer (S.left stream.old.source.now)) stream.new.framer.stage (D.seen disk.new) engine.new k
        × LeavesOnly D.moment D.left_since disk.old disk.new (IsBetween base h k) }
    ensures goes_on { AnswerGoesOn D.seen D.may_leave D.faults S.left S.read_faults S.source_stays disk.old disk.new stream.old stream.new result engine.old engine.new }
{
    if holds_body(&call.request) {
        return answer_held(alloc, login, engine, disk, call, stream);
    }
    answer_dropped(alloc, login, engine, disk, call, stream)
}
