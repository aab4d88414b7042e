//! One connection: messages are answered in turn, each with a turn of tasks behind it, until it ends.
ghost use Rattle.std.specs.Prelude.{◌≡◌, ◌≢◌, false, true, is_some};
ghost use Rattle.mt_base.specs.Counts.{Rose};
ghost use Rattle.mt_connection.specs.Endings.{ByFault, Images, Served};
ghost use Rattle.mt_connection.specs.Sides.{side_of, sides};
ghost use Rattle.mt_connection.specs.Steps.{MovesOn};
ghost use Rattle.mt_connection.specs.Transcript.{setting};
ghost use Rattle.mt_opening.specs.Current.{Over};
ghost use Rattle.mt_opening.specs.History.{Bytes, History};
ghost use Rattle.mt_model.specs.State.{State};
ghost use Rattle.mt_runner.specs.Account.{tasks_of, told_time};
ghost use Rattle.mt_runner.specs.AtWork.{WorkGoesOn, WorkIsReady};

use crate::end::{ConnectionEnd, Step};
use crate::turning::exchange;
use mt_disk::Disk;
use mt_edge::{Both, Clock};
use mt_engine::Engine;
use mt_runner::Runner;
use mt_spawn::Spawner;
use std::alloc::Global;

/// Serves the messages of one link, at most so many. Behind each that was answered a turn is taken; one that isn't patient only looks
/// whether a child has ended.
pub fn serve_connection<D: Disk, P: Spawner, C: Clock, L: Both>(
    alloc: Global,
    login: &str,
    engine: &mut Engine,
    runner: &mut Runner,
    disk: &mut D,
    spawner: &mut P,
    clock: &mut C,
    link: &mut L,
    most: u64,
    patient: bool,
) -> ConnectionEnd
    requires work { WorkIsReady D.seen D.may_leave P.may P.gives P.seen P.held P.rule disk.old spawner.old runner.old engine.old login.now }
    // Over each history that the disk stands for, where it tells what it holds: what was said, the history that it led to, what a
    // crash at its end leaves, and what one at any moment of it leaves.
    ensures served { (base : State Bytes) (h : History) → Over (D.seen disk.old) engine.old base h → (k : History)
        × Served (setting (is_some (L.left link.old)) (is_some (D.seen disk.old)) (C.gives (C.rule clock.old)) (P.gives (P.rule spawner.old)) login.now runner.old.slots engine.old.log.limit base) (D.left_since disk.new) most
        (sides (side_of L.left L.got L.read_faults L.write_faults link.old) h (D.seen disk.old) (D.faults disk.old) (told_time (is_some (D.seen disk.old)) (D.moment disk.old)) (C.asked clock.old) engine.old (tasks_of (P.seen spawner.old))) result
        (sides (side_of L.left L.got L.read_faults L.write_faults link.new) k (D.seen disk.new) (D.faults disk.new) (told_time (is_some (D.seen disk.old)) (D.moment disk.new)) (C.asked clock.new) engine.new (tasks_of (P.seen spawner.new)))
        × (is_some (D.seen disk.old) ≡ true → Images result base k (D.may_leave disk.new))
        × MovesOn D.seen D.moment D.left_since disk.old disk.new engine.new base h k }
    // Where neither the link nor the disk counted a fault, its end names none.
    ensures complete { ByFault result (Rose (L.read_faults link.old) (L.read_faults link.new)) (Rose (L.write_faults link.old) (L.write_faults link.new)) (Rose (D.faults disk.old) (D.faults disk.new)) }
    ensures keeps { WorkGoesOn D.seen D.may_leave D.faults P.may P.gives P.seen P.held P.rule C.rule disk.old disk.new spawner.old spawner.new clock.old clock.new runner.old runner.new engine.old engine.new }
    ensures live { result ≢ ConnectionEnd.Disk → result ≢ ConnectionEnd.Memory → engine.new.log.closed ≡ false }
    ensures stays { L.stays link.old link.new }
{
    for _answered in 0..most {
        match exchange(
            alloc, login, engine, runner, disk, spawner, clock, link, patient,
        ) {
            Step::Went(last) => {
                if last {
                    return ConnectionEnd::Ended;
                }
            }
            Step::Over(end) => return end,
        }
    }
    ConnectionEnd::Many
}
