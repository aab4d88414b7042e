//! The end of a run without a command, and refusals.
ghost use Rattle.std.specs.Prelude.{◌≡◌, ◌≢◌, ◌≤◌, ◌+◌, ℕ, List, []};
ghost use Rattle.mt_api.specs.Steps.{EndsWith, Replies, Settles};
ghost use Rattle.mt_disk.specs.CrashModel.{LeavesOnly};
ghost use Rattle.mt_opening.specs.Current.{IsCurrent, IsWriting};
ghost use Rattle.mt_opening.specs.History.{Bytes, HasHistory, History};
ghost use Rattle.mt_model.specs.State.{State};
ghost use Rattle.mt_reply.specs.Replies as words;
ghost use Rattle.mt_api.specs.GoingOn.{SettlesInRun, StepKeeps};
ghost use Rattle.mt_engine.specs.Ready.{RunIsReady};

use crate::answered::Answered;
use mt_base::LAST_MOMENT;
use mt_disk::Disk;
use mt_engine::{Engine, RunEnd};
use mt_error::Refused;
use mt_log::Run;
use mt_reply::{Stamp, error_reply};
use std::alloc::{AllocError, Global};

/// Ends a run without a command, and answers so.
pub(crate) fn end_with<D: Disk>(
    engine: &mut Engine,
    disk: &mut D,
    run: Run,
    answer: Answered,
) -> Answered
    requires ready { RunIsReady D.seen D.may_leave disk.old engine.old run }
    requires no_fault { answer ≢ Answered.Disk }
    ensures ends { EndsWith result answer engine.old run engine.new }
    ensures current { (base : State Bytes) (h : History) (qs : List (List ℕ)) → IsWriting (D.seen disk.old) engine.old run base h qs →
        result ≢ Answered.Disk → IsCurrent (D.seen disk.new) engine.new base h }
    ensures any_moment { (base : State Bytes) (h : History) (qs : List (List ℕ)) → IsWriting (D.seen disk.old) engine.old run base h qs →
        LeavesOnly D.moment D.left_since disk.old disk.new (HasHistory base h) }
    ensures keeps { StepKeeps D.seen D.may_leave D.faults disk.old disk.new result engine.old engine.new }
{
    match engine.end_run(disk, run) {
        RunEnd::Done => answer,
        RunEnd::Disk => Answered::Disk,
    }
}

/// Refuses a request. Nothing but memory is taken.
pub(crate) fn refuse(alloc: Global, stamp: Stamp, why: Refused) -> Answered
    requires { stamp.moment ≤ LAST_MOMENT }
    ensures { Replies result (words.error_reply stamp why) }
{
    match error_reply(alloc, stamp, why) {
        Ok(reply) => Answered::Replied(reply),
        Err(AllocError) => Answered::Memory,
    }
}

/// Refuses a request, and ends its run: the pieces that it has taken stay.
pub(crate) fn refuse_in<D: Disk>(
    alloc: Global,
    engine: &mut Engine,
    disk: &mut D,
    run: Run,
    stamp: Stamp,
    why: Refused,
) -> Answered
    requires ready { RunIsReady D.seen D.may_leave disk.old engine.old run }
    requires moment { stamp.moment ≤ LAST_MOMENT }
    ensures settles { (base : State Bytes) (h : History) (qs : List (List ℕ)) (before grew : ℕ) → IsWriting (D.seen disk.old) engine.old run base h qs →
        run.next + 1 ≡ before + grew →
        Settles result (record { reply = words.error_reply stamp why; added = []; grew = grew }) before base h (D.seen disk.new) engine.new h }
    ensures any_moment { (base : State Bytes) (h : History) (qs : List (List ℕ)) → IsWriting (D.seen disk.old) engine.old run base h qs →
        LeavesOnly D.moment D.left_since disk.old disk.new (HasHistory base h) }
    ensures settled { SettlesInRun D.seen D.may_leave D.faults disk.old disk.new result engine.old engine.new }
{
    let answer = refuse(alloc, stamp, why);
    end_with(engine, disk, run, answer)
}
