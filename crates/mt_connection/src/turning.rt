//! One exchange: a message is answered, and a turn is taken behind it.
ghost use Rattle.std.specs.Prelude.{◌≡◌, ◌≢◌, false, true, is_some};
ghost use Rattle.mt_connection.specs.Sides.{side_of, sides};
ghost use Rattle.mt_connection.specs.Steps as words;
ghost use Rattle.mt_connection.specs.Steps.{MovesOn, Stepped};
ghost use Rattle.mt_connection.specs.Transcript.{setting};
ghost use Rattle.mt_opening.specs.Current.{Over};
ghost use Rattle.mt_opening.specs.History.{Bytes, History};
ghost use Rattle.mt_model.specs.State.{State};
ghost use Rattle.mt_runner.specs.Account.{tasks_of, told_time};
ghost use Rattle.mt_runner.specs.AtWork.{WorkGoesOn, WorkIsReady};

use crate::answering::answer_message;
use crate::end::{ConnectionEnd, Step};
use mt_disk::Disk;
use mt_edge::{Both, Clock};
use mt_engine::Engine;
use mt_runner::{Runner, Turn};
use mt_spawn::Spawner;
use std::alloc::Global;

// How a connection goes on behind the turn of a message: a turn that had nothing to do, waits, or whose spawner failed changes nothing.
fn step_of_turn(turn: Turn, closing: bool) -> Step
    ensures { result ≡ words.step_of_turn closing turn }
{
    match turn {
        Turn::Closed(_) => Step::Went(closing),
        Turn::Committed(_) => Step::Went(closing),
        Turn::Idle => Step::Went(closing),
        Turn::NotYet => Step::Went(closing),
        Turn::SpawnFault => Step::Went(closing),
        Turn::Full => Step::Over(ConnectionEnd::Full),
        Turn::Disk => Step::Over(ConnectionEnd::Disk),
        Turn::Memory => Step::Over(ConnectionEnd::Memory),
    }
}

/// Reads one message from a link and answers it; and behind a reply that was written whole, the closing one too, one turn is taken, at a
/// moment of its own. A turn that isn't patient only looks whether a child has ended. Behind anything else no turn is taken.
pub fn exchange<D: Disk, P: Spawner, C: Clock, L: Both>(
    alloc: Global,
    login: &str,
    engine: &mut Engine,
    runner: &mut Runner,
    disk: &mut D,
    spawner: &mut P,
    clock: &mut C,
    link: &mut L,
    patient: bool,
) -> Step
    requires work { WorkIsReady D.seen D.may_leave P.may P.gives P.seen P.held P.rule disk.old spawner.old runner.old engine.old login.now }
    // Over each history that the disk stands for, where it tells what it holds: the step, the history that it leads to, and what a
    // crash at any moment of it leaves.
    ensures step { (base : State Bytes) (h : History) → Over (D.seen disk.old) engine.old base h → (k : History)
        × Stepped (setting (is_some (L.left link.old)) (is_some (D.seen disk.old)) (C.gives (C.rule clock.old)) (P.gives (P.rule spawner.old)) login.now runner.old.slots engine.old.log.limit base) (D.left_since disk.new) (D.may_leave disk.new)
        (sides (side_of L.left L.got L.read_faults L.write_faults link.old) h (D.seen disk.old) (D.faults disk.old) (told_time (is_some (D.seen disk.old)) (D.moment disk.old)) (C.asked clock.old) engine.old (tasks_of (P.seen spawner.old))) result
        (sides (side_of L.left L.got L.read_faults L.write_faults link.new) k (D.seen disk.new) (D.faults disk.new) (told_time (is_some (D.seen disk.old)) (D.moment disk.new)) (C.asked clock.new) engine.new (tasks_of (P.seen spawner.new)))
        × MovesOn D.seen D.moment D.left_since disk.old disk.new engine.new base h k }
    ensures keeps { WorkGoesOn D.seen D.may_leave D.faults P.may P.gives P.seen P.held P.rule C.rule disk.old disk.new spawner.old spawner.new clock.old clock.new runner.old runner.new engine.old engine.new }
    ensures live { result ≢ Step.Over ConnectionEnd.Disk → result ≢ Step.Over ConnectionEnd.Memory → engine.new.log.closed ≡ false }
    ensures stays { L.stays link.old link.new }
{
    match answer_message(alloc, login, engine, disk, clock, link) {
        Step::Went(closing) => {
            let turn = runner.turn(alloc, engine, disk, spawner, clock, patient);
            step_of_turn(turn, closing)
        }
        Step::Over(end) => Step::Over(end),
    }
}
