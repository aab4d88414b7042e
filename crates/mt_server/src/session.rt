//! One session: one connection over a source and a sink that lie apart, and a drain of tasks behind it.
ghost use Rattle.std.specs.Prelude.{◌≡◌, ℕ, true, is_some};
ghost use Rattle.std.specs.Option.{ForSome};
ghost use Rattle.mt_disk.specs.Files.{Files};
ghost use Rattle.mt_model.specs.State.{State};
ghost use Rattle.mt_opening.specs.Current.{Over};
ghost use Rattle.mt_opening.specs.History.{Bytes, HasHistory, History};
ghost use Rattle.mt_runner.specs.Account.{account_side, tasks_of, told_time};
ghost use Rattle.mt_runner.specs.AtWork.{WorkGoesOn, WorkIsReady};
ghost use Rattle.mt_connection.specs.Sides.{joined, link_side, sides};
ghost use Rattle.mt_connection.specs.Steps.{MovesOn};
ghost use Rattle.mt_connection.specs.Transcript.{setting};
ghost use Rattle.mt_server.specs.Guarantees.{HasRun, IsDurable, Worked, scene};
ghost use Rattle.mt_server.specs.Events.{size_of};
ghost use Rattle.mt_server.specs.Running.{LeavesOutside, RunCanBegin, SaysOfStore, SessionHasCause};
ghost use Rattle.mt_server.specs.Statuses.{IsBegun, IsOfSession, StaysOpen, is_ended};

use crate::opening::open_store;
use crate::status::Status;
use mt_connection::{ConnectionEnd, serve_connection};
use mt_disk::Disk;
use mt_edge::{Clock, Joined, Sink, Source};
use mt_engine::Engine;
use mt_runner::Runner;
use mt_spawn::Spawner;
use std::alloc::Global;

/// As many messages as one connection has.
pub(crate) const MOST_MESSAGES: u64 = 16_777_216;

/// As many turns as one drain has.
pub(crate) const MOST_TURNS: u64 = 1_048_576;

// Whether a connection ended well.
fn is_ended(end: ConnectionEnd) -> bool
    ensures { result ≡ is_ended end }
{
    matches!(end, ConnectionEnd::Ended)
}

// Serves one connection over a source and a sink, and where it ended well runs the tasks that are left.
fn work_session<S: Source, K: Sink, D: Disk, P: Spawner, C: Clock>(
    alloc: Global,
    login: &str,
    engine: &mut Engine,
    runner: &mut Runner,
    source: &mut S,
    sink: &mut K,
    disk: &mut D,
    spawner: &mut P,
    clock: &mut C,
) -> Status
    requires work { WorkIsReady D.seen D.may_leave P.may P.gives P.seen P.held P.rule disk.old spawner.old runner.old engine.old login.now }
    ensures worked { (base : State Bytes) (h : History) → Over (D.seen disk.old) engine.old base h → (k : History)
        × Worked (setting (is_some (S.left source.old)) (is_some (D.seen disk.old)) (C.gives (C.rule clock.old)) (P.gives (P.rule spawner.old)) login.now runner.old.slots engine.old.log.limit base) (D.left_since disk.new)
        (sides (link_side (S.left source.old) (K.got sink.old) (S.read_faults source.old) (K.write_faults sink.old)) h (D.seen disk.old) (D.faults disk.old) (told_time (is_some (D.seen disk.old)) (D.moment disk.old)) (C.asked clock.old) engine.old (tasks_of (P.seen spawner.old))) result
        (sides (link_side (S.left source.new) (K.got sink.new) (S.read_faults source.new) (K.write_faults sink.new)) k (D.seen disk.new) (D.faults disk.new) (told_time (is_some (D.seen disk.old)) (D.moment disk.new)) (C.asked clock.new) engine.new (tasks_of (P.seen spawner.new)))
        × (is_some (D.seen disk.old) ≡ true → (c : Files) → D.may_leave disk.new c → IsDurable result base k c)
        × MovesOn D.seen D.moment D.left_since disk.old disk.new engine.new base h k }
    ensures keeps { WorkGoesOn D.seen D.may_leave D.faults P.may P.gives P.seen P.held P.rule C.rule disk.old disk.new spawner.old spawner.new clock.old clock.new runner.old runner.new engine.old engine.new }
    ensures of_session { IsOfSession result × IsBegun result }
    ensures cause { SessionHasCause S.left S.read_faults K.write_faults D.faults P.seen source.old source.new sink.old sink.new disk.old disk.new spawner.old spawner.new result }
    ensures live { StaysOpen result engine.new.log.closed }
    ensures source_stays { S.source_stays source.old source.new }
    ensures sink_stays { K.sink_stays sink.old sink.new }
{
    let mut link = Joined { source, sink };
    let end = serve_connection(
        alloc,
        login,
        engine,
        runner,
        disk,
        spawner,
        clock,
        &mut link,
        MOST_MESSAGES,
        true,
    );
    if !is_ended(end) {
        return Status::Session(end);
    }
    let last = runner.drain(alloc, engine, disk, spawner, clock, MOST_TURNS, true);
    Status::Drained(last)
}

// Opens the store, serves one connection, and ends the children that are left.
pub(crate) fn session<S: Source, K: Sink, D: Disk, P: Spawner, C: Clock>(
    alloc: Global,
    login: &str,
    limit: u64,
    runner: &mut Runner,
    source: &mut S,
    sink: &mut K,
    disk: &mut D,
    spawner: &mut P,
    clock: &mut C,
) -> Status
    requires begin { RunCanBegin D.seen D.may_leave P.seen P.held disk.old spawner.old runner.old login.now }
    ensures run { (base : State Bytes) (h : History) → ForSome (D.seen disk.old) (HasHistory base h) → (k : History) × (used : ℕ) ×
        HasRun (setting (is_some (S.left source.old)) (is_some (D.seen disk.old)) (C.gives (C.rule clock.old)) (P.gives (P.rule spawner.old)) login.now runner.old.slots limit base)
        (scene D.seen D.may_leave D.left_since disk.old (joined (link_side (S.left source.old) (K.got sink.old) (S.read_faults source.old) (K.write_faults sink.old))
        (account_side h (size_of (D.seen disk.old)) (D.faults disk.old) (told_time (is_some (D.seen disk.old)) (D.moment disk.old)) (C.asked clock.old) (tasks_of (P.seen spawner.old))))) result
        (scene D.seen D.may_leave D.left_since disk.new (joined (link_side (S.left source.new) (K.got sink.new) (S.read_faults source.new) (K.write_faults sink.new))
        (account_side k used (D.faults disk.new) (told_time (is_some (D.seen disk.old)) (D.moment disk.new)) (C.asked clock.new) (tasks_of (P.seen spawner.new))))) }
    ensures of_session { IsOfSession result }
    ensures store { SaysOfStore D.seen D.may_leave D.moment D.left_since K.got K.write_faults disk.old disk.new sink.old sink.new ((source.new ≡ source.old) × (spawner.new ≡ spawner.old)) result }
    ensures cause { SessionHasCause S.left S.read_faults K.write_faults D.faults P.seen source.old source.new sink.old sink.new disk.old disk.new spawner.old spawner.new result }
    ensures outside { LeavesOutside D.seen D.may_leave P.seen P.held P.rule C.rule disk.old disk.new spawner.old spawner.new clock.old clock.new (S.source_stays source.old source.new × K.sink_stays sink.old sink.new) result }
{
    match open_store(alloc, limit, sink, disk) {
        Ok(engine) => {
            let mut engine = engine;
            let status = work_session(
                alloc,
                login,
                &mut engine,
                runner,
                source,
                sink,
                disk,
                spawner,
                clock,
            );
            runner.stop(spawner);
            return status;
        }
        Err(status) => return status,
    }
}
