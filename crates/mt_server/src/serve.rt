//! Many connections: turns of the links of a door, one after another, each of which is given back, and a drain of tasks behind each.
ghost use Rattle.std.specs.Prelude.{◌≡◌, ◌≢◌, ◌<◌, ◌+◌, ℕ, false, is_some, Some};
ghost use Rattle.std.specs.Option.{ForSome};
ghost use Rattle.mt_base.specs.Counts.{NeverFell, Rose};
ghost use Rattle.mt_edge.specs.Doors.{as_count};
ghost use Rattle.mt_model.specs.State.{State};
ghost use Rattle.mt_opening.specs.Current.{Over, told_size};
ghost use Rattle.mt_opening.specs.History.{Bytes, HasHistory, History};
ghost use Rattle.mt_runner.specs.Account.{account_side, tasks_of, told_time};
ghost use Rattle.mt_runner.specs.AtWork.{WorkGoesOn, WorkIsReady};
ghost use Rattle.mt_connection.specs.Sides.{side_of};
ghost use Rattle.mt_connection.specs.Steps.{MovesOn};
ghost use Rattle.mt_connection.specs.Transcript.{setting};
ghost use Rattle.mt_server.specs.Guarantees.{HasServed, scene, shop};
ghost use Rattle.mt_server.specs.Events.{door_side, drain_breaks, end_breaks, size_of};
ghost use Rattle.mt_server.specs.Running.{DoorIsIdle, LeavesOutside, RunCanBegin, SaysOfStore, ServeHasCause};
ghost use Rattle.mt_server.specs.Statuses.{IsBegun, IsOfServe, StaysOpen};
ghost use Rattle.mt_server.specs.Visiting.{EventCounts, EventFaults, EventIsAskedFor, Happens, IsAskedFor, LeavesOpen, ServesLinks, TurnCounts, Visit, end_of, happened_by, served_by};

use crate::came::{Came, Happened};
use crate::opening::open_store;
use crate::session::{MOST_MESSAGES, MOST_TURNS};
use crate::status::{ServeEnd, Status};
use mt_connection::{ConnectionEnd, serve_connection};
use mt_disk::Disk;
use mt_edge::{Both, Clock, Door, Next, Sink};
use mt_engine::Engine;
use mt_runner::{Runner, Turn};
use mt_spawn::Spawner;
use std::alloc::Global;

// Takes a link from the door, serves one turn of it and gives it back.
fn visit<W: Door, D: Disk, P: Spawner, C: Clock>(
    alloc: Global,
    login: &str,
    engine: &mut Engine,
    runner: &mut Runner,
    disk: &mut D,
    spawner: &mut P,
    clock: &mut C,
    door: &mut W,
    fresh: bool,
) -> Came
    requires work { WorkIsReady D.seen D.may_leave P.may P.gives P.seen P.held P.rule disk.old spawner.old runner.old engine.old login.now }
    requires back { W.over door.old + W.kept door.old ≡ W.taken door.old }
    requires some { fresh ≡ false → 0 < W.kept door.old }
    ensures visit { (base : State Bytes) (h : History) → Over (D.seen disk.old) engine.old base h → (k : History)
        × Visit (side_of W.Link.left W.Link.got W.Link.read_faults W.Link.write_faults) W.Link.stays
        (setting false (is_some (D.seen disk.old)) (C.gives (C.rule clock.old)) (P.gives (P.rule spawner.old)) login.now runner.old.slots engine.old.log.limit base) (D.left_since disk.new) (D.may_leave disk.new)
        (shop (account_side h (told_size (D.seen disk.old) engine.old) (D.faults disk.old) (told_time (is_some (D.seen disk.old)) (D.moment disk.old)) (C.asked clock.old) (tasks_of (P.seen spawner.old)))
        (door_side (W.waiting door.old) (W.given_back door.old) (W.taken door.old) (W.over door.old) (W.door_faults door.old))) result
        (shop (account_side k (told_size (D.seen disk.new) engine.new) (D.faults disk.new) (told_time (is_some (D.seen disk.old)) (D.moment disk.new)) (C.asked clock.new) (tasks_of (P.seen spawner.new)))
        (door_side (W.waiting door.new) (W.given_back door.new) (W.taken door.new) (W.over door.new) (W.door_faults door.new)))
        × MovesOn D.seen D.moment D.left_since disk.old disk.new engine.new base h k }
    ensures keeps { WorkGoesOn D.seen D.may_leave D.faults P.may P.gives P.seen P.held P.rule C.rule disk.old disk.new spawner.old spawner.new clock.old clock.new runner.old runner.new engine.old engine.new }
    ensures live { end_of result ≢ Some ConnectionEnd.Disk → end_of result ≢ Some ConnectionEnd.Memory → engine.new.log.closed ≡ false }
    ensures by_disk { end_of result ≡ Some ConnectionEnd.Disk → Rose (D.faults disk.old) (D.faults disk.new) }
    ensures counts { TurnCounts result (W.taken door.old) (W.over door.old) (W.door_faults door.old) (W.taken door.new) (W.over door.new) (W.door_faults door.new) }
    ensures asked_for { IsAskedFor fresh result }
    ensures spawn_faults { NeverFell (P.seen spawner.old).faults (P.seen spawner.new).faults }
    ensures back { W.over door.new + W.kept door.new ≡ W.taken door.new }
{
    match door.next(fresh) {
        Next::New(link) => {
            let mut new = link;
            let end = serve_connection(
                alloc,
                login,
                engine,
                runner,
                disk,
                spawner,
                clock,
                &mut new,
                MOST_MESSAGES,
                false,
            );
            let over = door.done(new);
            Came::Had {
                first: true,
                over,
                end,
            }
        }
        Next::Again(link) => {
            let mut kept = link;
            let end = serve_connection(
                alloc,
                login,
                engine,
                runner,
                disk,
                spawner,
                clock,
                &mut kept,
                MOST_MESSAGES,
                false,
            );
            let over = door.done(kept);
            Came::Had {
                first: false,
                over,
                end,
            }
        }
        Next::Woken => Came::Woke,
        Next::Failed => Came::NoLink,
    }
}

// How the serving of links ends by the end of a turn, or that it goes on.
fn end_breaks(end: ConnectionEnd) -> Option<ServeEnd>
    ensures { result ≡ end_breaks end }
{
    match end {
        ConnectionEnd::Full => Some(ServeEnd::LogFull),
        ConnectionEnd::Disk => Some(ServeEnd::Disk),
        ConnectionEnd::Memory => Some(ServeEnd::Memory),
        ConnectionEnd::Ended
        | ConnectionEnd::Many
        | ConnectionEnd::Truncated
        | ConnectionEnd::Refused
        | ConnectionEnd::SourceFault
        | ConnectionEnd::SinkFault => None,
    }
}

// One more, or as many.
fn add(count: u64, more: bool) -> u64
    requires { count + as_count more < 18446744073709551616 }
    ensures { result ≡ count + as_count more }
{
    if more { count + 1 } else { count }
}

// What an event came to, by the answer of its drain.
fn happened_by(first: bool, over: bool, last: Turn) -> Happened
    ensures { result ≡ happened_by first over last }
{
    match last {
        Turn::Full => Happened::Broke(ServeEnd::LogFull),
        Turn::Disk => Happened::Broke(ServeEnd::Disk),
        Turn::Memory => Happened::Broke(ServeEnd::Memory),
        Turn::Closed(_) | Turn::Committed(_) | Turn::Idle | Turn::NotYet | Turn::SpawnFault => {
            Happened::Went { first, over, last }
        }
    }
}

// How a serve ends whose links are all over, by the answer of its last drain.
fn served_by(last: Turn) -> ServeEnd
    ensures { result ≡ served_by last }
{
    match last {
        Turn::Idle => ServeEnd::Served,
        Turn::SpawnFault => ServeEnd::TasksFailed,
        Turn::Closed(_)
        | Turn::Committed(_)
        | Turn::NotYet
        | Turn::Full
        | Turn::Disk
        | Turn::Memory => { ServeEnd::TasksPending }
    }
}

// One event: a call at the door, and a drain behind it, unless it broke. The drain waits for commands only behind the last link, where one
// is left.
fn event<W: Door, D: Disk, P: Spawner, C: Clock>(
    alloc: Global,
    login: &str,
    engine: &mut Engine,
    runner: &mut Runner,
    disk: &mut D,
    spawner: &mut P,
    clock: &mut C,
    door: &mut W,
    fresh: bool,
    one_left: bool,
) -> Happened
    requires work { WorkIsReady D.seen D.may_leave P.may P.gives P.seen P.held P.rule disk.old spawner.old runner.old engine.old login.now }
    requires back { W.over door.old + W.kept door.old ≡ W.taken door.old }
    requires some { fresh ≡ false → 0 < W.kept door.old }
    ensures happens { (base : State Bytes) (h : History) → Over (D.seen disk.old) engine.old base h → (k : History)
        × Happens (side_of W.Link.left W.Link.got W.Link.read_faults W.Link.write_faults) W.Link.stays
        (setting false (is_some (D.seen disk.old)) (C.gives (C.rule clock.old)) (P.gives (P.rule spawner.old)) login.now runner.old.slots engine.old.log.limit base) (D.left_since disk.new) (D.may_leave disk.new)
        (shop (account_side h (told_size (D.seen disk.old) engine.old) (D.faults disk.old) (told_time (is_some (D.seen disk.old)) (D.moment disk.old)) (C.asked clock.old) (tasks_of (P.seen spawner.old)))
        (door_side (W.waiting door.old) (W.given_back door.old) (W.taken door.old) (W.over door.old) (W.door_faults door.old))) result
        (shop (account_side k (told_size (D.seen disk.new) engine.new) (D.faults disk.new) (told_time (is_some (D.seen disk.old)) (D.moment disk.new)) (C.asked clock.new) (tasks_of (P.seen spawner.new)))
        (door_side (W.waiting door.new) (W.given_back door.new) (W.taken door.new) (W.over door.new) (W.door_faults door.new)))
        × MovesOn D.seen D.moment D.left_since disk.old disk.new engine.new base h k }
    ensures keeps { WorkGoesOn D.seen D.may_leave D.faults P.may P.gives P.seen P.held P.rule C.rule disk.old disk.new spawner.old spawner.new clock.old clock.new runner.old runner.new engine.old engine.new }
    ensures live { LeavesOpen result engine.new.log.closed }
    ensures faults { EventFaults result (D.faults disk.old) (P.seen spawner.old).faults (D.faults disk.new) (P.seen spawner.new).faults }
    ensures spawn_faults { NeverFell (P.seen spawner.old).faults (P.seen spawner.new).faults }
    ensures counts { EventCounts result (W.taken door.old) (W.over door.old) (W.door_faults door.old) (W.taken door.new) (W.over door.new) (W.door_faults door.new) }
    ensures asked_for { EventIsAskedFor fresh result }
    ensures back { W.over door.new + W.kept door.new ≡ W.taken door.new }
{
    match visit(
        alloc, login, engine, runner, disk, spawner, clock, door, fresh,
    ) {
        Came::Had { first, over, end } => {
            if let Some(end) = end_breaks(end) {
                return Happened::Broke(end);
            }
            let patient = over && one_left;
            let last = runner.drain(alloc, engine, disk, spawner, clock, MOST_TURNS, patient);
            return happened_by(first, over, last);
        }
        Came::Woke => {
            let last = runner.drain(alloc, engine, disk, spawner, clock, MOST_TURNS, false);
            return happened_by(false, false, last);
        }
        Came::NoLink => return Happened::NoLink,
    }
}

// Serves so many links of a door, each until it is over.
fn serve_links<W: Door, D: Disk, P: Spawner, C: Clock>(
    alloc: Global,
    login: &str,
    engine: &mut Engine,
    runner: &mut Runner,
    disk: &mut D,
    spawner: &mut P,
    clock: &mut C,
    door: &mut W,
    connections: u64,
) -> ServeEnd
    requires work { WorkIsReady D.seen D.may_leave P.may P.gives P.seen P.held P.rule disk.old spawner.old runner.old engine.old login.now }
    requires some { 0 < connections }
    requires door { DoorIsIdle (W.taken door.old) (W.over door.old) (W.kept door.old) }
    ensures served { (base : State Bytes) (h : History) → Over (D.seen disk.old) engine.old base h → (k : History)
        × ServesLinks (side_of W.Link.left W.Link.got W.Link.read_faults W.Link.write_faults) W.Link.stays
        (setting false (is_some (D.seen disk.old)) (C.gives (C.rule clock.old)) (P.gives (P.rule spawner.old)) login.now runner.old.slots engine.old.log.limit base) (D.left_since disk.new) (D.may_leave disk.new) connections
        (shop (account_side h (told_size (D.seen disk.old) engine.old) (D.faults disk.old) (told_time (is_some (D.seen disk.old)) (D.moment disk.old)) (C.asked clock.old) (tasks_of (P.seen spawner.old)))
        (door_side (W.waiting door.old) (W.given_back door.old) (W.taken door.old) (W.over door.old) (W.door_faults door.old))) result
        (shop (account_side k (told_size (D.seen disk.new) engine.new) (D.faults disk.new) (told_time (is_some (D.seen disk.old)) (D.moment disk.new)) (C.asked clock.new) (tasks_of (P.seen spawner.new)))
        (door_side (W.waiting door.new) (W.given_back door.new) (W.taken door.new) (W.over door.new) (W.door_faults door.new)))
        × MovesOn D.seen D.moment D.left_since disk.old disk.new engine.new base h k }
    ensures keeps { WorkGoesOn D.seen D.may_leave D.faults P.may P.gives P.seen P.held P.rule C.rule disk.old disk.new spawner.old spawner.new clock.old clock.new runner.old runner.new engine.old engine.new }
    ensures live { StaysOpen (Status.Serve result) engine.new.log.closed }
    ensures cause { ServeHasCause D.faults P.seen W.taken W.door_faults disk.old disk.new spawner.old spawner.new door.old door.new connections (Status.Serve result) }
    ensures spawn_faults { NeverFell (P.seen spawner.old).faults (P.seen spawner.new).faults }
{
    let mut taken = 0u64;
    let mut over = 0u64;
    'events: for _event in 0..u64::MAX {
        let fresh = taken < connections;
        let one_left = over + 1 == connections;
        match event(
            alloc, login, engine, runner, disk, spawner, clock, door, fresh, one_left,
        ) {
            Happened::Went {
                first,
                over: one,
                last,
            } => {
                taken = add(taken, first);
                over = add(over, one);
                if over == connections {
                    return served_by(last);
                }
            }
            Happened::Broke(end) => return end,
            Happened::NoLink => return ServeEnd::NoLink,
        }
    }
    ServeEnd::Spent
}

// Opens the store, serves so many links of a door, and ends the children that are left.
pub(crate) fn serve<K: Sink, D: Disk, P: Spawner, C: Clock, W: Door>(
    alloc: Global,
    login: &str,
    limit: u64,
    connections: u64,
    runner: &mut Runner,
    sink: &mut K,
    disk: &mut D,
    spawner: &mut P,
    clock: &mut C,
    door: &mut W,
) -> Status
    requires begin { RunCanBegin D.seen D.may_leave P.seen P.held disk.old spawner.old runner.old login.now }
    requires some { 0 < connections }
    requires door { DoorIsIdle (W.taken door.old) (W.over door.old) (W.kept door.old) }
    ensures served { (base : State Bytes) (h : History) → ForSome (D.seen disk.old) (HasHistory base h) → (k : History) × (used : ℕ) ×
        HasServed (side_of W.Link.left W.Link.got W.Link.read_faults W.Link.write_faults) W.Link.stays
        (setting false (is_some (D.seen disk.old)) (C.gives (C.rule clock.old)) (P.gives (P.rule spawner.old)) login.now runner.old.slots limit base) connections
        (scene D.seen D.may_leave D.left_since disk.old (shop (account_side h (size_of (D.seen disk.old)) (D.faults disk.old) (told_time (is_some (D.seen disk.old)) (D.moment disk.old)) (C.asked clock.old) (tasks_of (P.seen spawner.old)))
        (door_side (W.waiting door.old) (W.given_back door.old) (W.taken door.old) (W.over door.old) (W.door_faults door.old)))) result
        (scene D.seen D.may_leave D.left_since disk.new (shop (account_side k used (D.faults disk.new) (told_time (is_some (D.seen disk.old)) (D.moment disk.new)) (C.asked clock.new) (tasks_of (P.seen spawner.new)))
        (door_side (W.waiting door.new) (W.given_back door.new) (W.taken door.new) (W.over door.new) (W.door_faults door.new)))) }
    ensures of_serve { IsOfServe result × (IsBegun result → sink.new ≡ sink.old) }
    ensures store { SaysOfStore D.seen D.may_leave D.moment D.left_since K.got K.write_faults disk.old disk.new sink.old sink.new ((door.new ≡ door.old) × (spawner.new ≡ spawner.old)) result }
    ensures cause { ServeHasCause D.faults P.seen W.taken W.door_faults disk.old disk.new spawner.old spawner.new door.old door.new connections result }
    ensures outside { LeavesOutside D.seen D.may_leave P.seen P.held P.rule C.rule disk.old disk.new spawner.old spawner.new clock.old clock.new (K.sink_stays sink.old sink.new) result }
{
    match open_store(alloc, limit, sink, disk) {
        Ok(engine) => {
            let mut engine = engine;
            let end = serve_links(
                alloc,
                login,
                &mut engine,
                runner,
                disk,
                spawner,
                clock,
                door,
                connections,
            );
            runner.stop(spawner);
            return Status::Serve(end);
        }
        Err(status) => return status,
    }
}
