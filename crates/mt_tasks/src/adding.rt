//! The end of a run: with a command that has room, or given up.
ghost use Rattle.std.specs.Prelude.{◌≡◌, ◌≢◌, ◌⊎◌, ◌-◌, ℕ, List, None, true};
ghost use Rattle.mt_account.specs.Taken.{IsTaken};
ghost use Rattle.mt_base.specs.Counts.{Rose};
ghost use Rattle.mt_body.specs.Growth.{command_pieces};
ghost use Rattle.mt_body.specs.Stored.{IsStored, bytes_of};
ghost use Rattle.mt_codec.specs.Spelling.{IsWithinLimits};
ghost use Rattle.mt_disk.specs.CrashModel.{LeavesOnly};
ghost use Rattle.mt_opening.specs.Current.{IsBetween, IsCurrent, IsWriting};
ghost use Rattle.mt_opening.specs.History.{Bytes, HasHistory, History};
ghost use Rattle.mt_engine.specs.Accepting.{HasRoomFor};
ghost use Rattle.mt_engine.specs.Ready.{EngineStays, RunIsReady};
ghost use Rattle.mt_log.specs.LogState.{Stands};
ghost use Rattle.mt_model.specs.Bodies.{OfCommand};
ghost use Rattle.mt_model.specs.CommandStep.{allowed, step};
ghost use Rattle.mt_model.specs.State.{State};
ghost use Rattle.mt_tasks.specs.Adding.{Adds, LeavesEngine};
ghost use Rattle.mt_types.specs.Kinds.{kind_of};
ghost use Rattle.mt_types.specs.Values.{command_with};

use crate::outcomes::OutcomeEnd;
use mt_disk::Disk;
use mt_engine::{Accepted, Engine, RunEnd};
use mt_log::Run;
use mt_types::{Body, Command};
use std::alloc::Global;

/// Ends a run with a command that is allowed and has room behind what the run has taken.
pub(crate) fn add<D: Disk>(
    alloc: Global,
    engine: &mut Engine,
    disk: &mut D,
    run: Run,
    command: Command<Body>,
) -> OutcomeEnd
    requires ready { RunIsReady D.seen D.may_leave disk.old engine.old run }
    requires kind { IsTaken (kind_of command) }
    requires limits { IsWithinLimits command }
    requires free { allowed (λ b. b.len) engine.old.state command ≡ None }
    requires room { HasRoomFor engine.old (run.next - engine.old.log.gate) command }
    // Over any disk.
    ensures state { LeavesEngine result (λ s. s ≡ step engine.old.state command) engine.old engine.new }
    ensures read { result ≢ OutcomeEnd.Unread }
    ensures room { result ≢ OutcomeEnd.Full }
    // Over one that tells what it holds.
    ensures adds { (base : State Bytes) (h : History) (qs : List (List ℕ)) → IsWriting (D.seen disk.old) engine.old run base h qs → OfCommand (IsStored qs) command →
        command_pieces (command_with (bytes_of qs) command) ≡ run.next - engine.old.log.gate →
        (k : History) × Adds (λ s c. c ≡ command_with (bytes_of qs) command) result base h engine.old (D.seen disk.new) engine.new k
        × LeavesOnly D.moment D.left_since disk.old disk.new (IsBetween base h k) }
    ensures stands { Stands D.seen D.may_leave disk.new engine.new.log }
    ensures keeps { EngineStays D.seen D.faults disk.old disk.new engine.old engine.new }
    ensures disk { result ≡ OutcomeEnd.Disk → Rose (D.faults disk.old) (D.faults disk.new) }
{
    match engine.accept(alloc, disk, run, command) {
        Accepted::Added => OutcomeEnd::Added,
        Accepted::Disk => OutcomeEnd::Disk,
        Accepted::Memory => OutcomeEnd::Memory,
        Accepted::Refused(_) | Accepted::Full | Accepted::Closed => unreachable!(),
    }
}

/// Gives a run up. What it took is not read again, and the log is as long as before.
pub(crate) fn give_up<D: Disk>(
    engine: &mut Engine,
    disk: &mut D,
    run: Run,
    end: OutcomeEnd,
) -> OutcomeEnd
    requires ready { RunIsReady D.seen D.may_leave disk.old engine.old run }
    requires end { end ≢ OutcomeEnd.Disk }
    ensures end { ((result ≡ end) × (engine.new ≡ engine.old)) ⊎ ((result ≡ OutcomeEnd.Disk) × (engine.new.log.closed ≡ true)) }
    ensures current { (base : State Bytes) (h : History) (qs : List (List ℕ)) → IsWriting (D.seen disk.old) engine.old run base h qs →
        result ≢ OutcomeEnd.Disk → IsCurrent (D.seen disk.new) engine.new base h }
    ensures any_moment { (base : State Bytes) (h : History) (qs : List (List ℕ)) → IsWriting (D.seen disk.old) engine.old run base h qs →
        LeavesOnly D.moment D.left_since disk.old disk.new (HasHistory base h) }
    ensures stands { Stands D.seen D.may_leave disk.new engine.new.log }
    ensures keeps { EngineStays D.seen D.faults disk.old disk.new engine.old engine.new }
    ensures disk { result ≡ OutcomeEnd.Disk → Rose (D.faults disk.old) (D.faults disk.new) }
{
    match engine.drop_run(disk, run) {
        RunEnd::Done => end,
        RunEnd::Disk => OutcomeEnd::Disk,
    }
}
