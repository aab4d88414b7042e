//! What is asked of jobs and changes the account: the command that ends a run.
ghost use Rattle.std.specs.Prelude.{◌≡◌, ◌≤◌, ℕ, List, IfOk, Option};
ghost use Rattle.mt_answer.specs.Answer.{Answer};
ghost use Rattle.mt_answer.specs.JobAnswer as words;
ghost use Rattle.mt_api.specs.Answered.{Asked, answer_at, used};
ghost use Rattle.mt_api.specs.GoingOn.{SettlesInRun};
ghost use Rattle.mt_api.specs.Jobs.{IsJobCallOf, JobInRun, JobIsReady};
ghost use Rattle.mt_api.specs.Steps.{Settles};
ghost use Rattle.mt_disk.specs.CrashModel.{LeavesOnly};
ghost use Rattle.mt_opening.specs.Current.{IsBetween, IsWriting};
ghost use Rattle.mt_opening.specs.History.{Bytes, HasHistory, History};
ghost use Rattle.mt_engine.specs.Ready.{RunIsReady};
ghost use Rattle.mt_model.specs.CommandStep.{replay};
ghost use Rattle.mt_model.specs.State.{State};
ghost use Rattle.mt_types.specs.declared.body.Body.{Body};
ghost use Rattle.mt_types.specs.declared.command.Archive.{Archive};

use crate::answered::Answered;
use crate::call::JobCall;
use crate::refuse::refuse;
use mt_answer::job_laws::lawful_is_showable;
use mt_answer::job_reply_to;
use mt_base::LAST_MOMENT;
use mt_disk::Disk;
use mt_engine::{Accepted, Engine, RunEnd};
use mt_error::{ErrorCode, Refused};
use mt_log::Run;
use mt_reply::Stamp;
use mt_types::{Body, Command, Reply};
use std::alloc::{AllocError, Global};

/// The reply to what is asked of jobs and isn't refused, behind so many commands.
pub(crate) fn job_reply_at(
    alloc: Global,
    login: &str,
    engine: &Engine,
    call: &JobCall,
    position: u64,
) -> Result<Reply<Body>, AllocError>
    requires { call.now.stamp.moment ≤ LAST_MOMENT }
    ensures { IfOk result (λ reply. reply ≡ words.job_reply_to login.now (record call.now.stamp { position = position }) engine.now.state call.now.request.doing) }
{
    lawful_is_showable();
    let stamp = Stamp {
        position,
        moment: call.stamp.moment,
        closes: call.stamp.closes,
    };
    job_reply_to(
        alloc,
        login,
        stamp,
        engine.position(),
        engine.jobs(),
        &call.request.doing,
    )
}

/// Gives a run up for want of memory. It leaves no trace, and the history is that of before.
pub(crate) fn give_up<D: Disk>(engine: &mut Engine, disk: &mut D, run: Run) -> Answered
    requires ready { RunIsReady D.seen D.may_leave disk.old engine.old run }
    ensures settles { (answer : Answer Bytes) (before : ℕ) (base : State Bytes) (h : History) (qs : List (List ℕ)) → IsWriting (D.seen disk.old) engine.old run base h qs →
        Settles result answer before base h (D.seen disk.new) engine.new h }
    ensures any_moment { (base : State Bytes) (h : History) (qs : List (List ℕ)) → IsWriting (D.seen disk.old) engine.old run base h qs →
        LeavesOnly D.moment D.left_since disk.old disk.new (HasHistory base h) }
    ensures settled { SettlesInRun D.seen D.may_leave D.faults disk.old disk.new result engine.old engine.new }
{
    match engine.drop_run(disk, run) {
        RunEnd::Done => return Answered::Memory,
        RunEnd::Disk => return Answered::Disk,
    }
}

/// Ends a run with the command of what is asked of jobs, which isn't refused. The reply is made first, and given out once the command is on
/// the disk.
pub(crate) fn add_job<D: Disk>(
    alloc: Global,
    login: &str,
    engine: &mut Engine,
    disk: &mut D,
    run: Run,
    call: JobCall,
    command: Command<Body>,
) -> Answered
    requires ready { JobInRun D.seen D.may_leave disk.old engine.old run call command }
    ensures settles { (base : State Bytes) (h : History) (qs : List (List ℕ)) (asked : Asked) (archive : Option (Archive Body)) (bytes : Bytes) → IsJobCallOf login.now asked engine.old call →
        JobIsReady (D.seen disk.old) engine.old run base h qs login.now call archive command bytes →
        (k : History) × Settles result (answer_at asked engine.old (replay base h) bytes) (used engine.old) base h (D.seen disk.new) engine.new k
        × LeavesOnly D.moment D.left_since disk.old disk.new (IsBetween base h k) }
    ensures settled { SettlesInRun D.seen D.may_leave D.faults disk.old disk.new result engine.old engine.new }
{
    let stamp = call.stamp;
    let position = engine.position() + 1;
    let reply = match job_reply_at(alloc, login, engine, &call, position) {
        Ok(reply) => reply,
        Err(AllocError) => return give_up(engine, disk, run),
    };
    match engine.accept(alloc, disk, run, command) {
        Accepted::Added => return Answered::Replied(reply),
        Accepted::Full => {
            return refuse(alloc, stamp, Refused::plain(ErrorCode::NotEnoughSpace));
        }
        Accepted::Disk => return Answered::Disk,
        Accepted::Memory => return Answered::Memory,
        // never, since it was judged before
        Accepted::Refused(_) => return Answered::Memory,
        Accepted::Closed => unreachable!(),
    }
}
