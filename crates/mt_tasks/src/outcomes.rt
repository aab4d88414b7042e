//! The end of a task, and that of a job.
ghost use Rattle.mt_disk.specs.CrashModel.{LeavesOnly};
ghost use Rattle.mt_opening.specs.Current.{EngineIsReady, IsBetween, IsCurrent};
ghost use Rattle.mt_opening.specs.History.{Bytes, History};
ghost use Rattle.mt_engine.specs.Accepting.{HasRoomFor};
ghost use Rattle.mt_engine.specs.Archiving.{texts_size};
ghost use Rattle.mt_engine.specs.Ready.{EngineStays};
ghost use Rattle.mt_log.specs.LogState.{Stands};
ghost use Rattle.mt_model.specs.Keeping.{IsSaidFate};
ghost use Rattle.mt_model.specs.State.{State};
ghost use Rattle.mt_records.specs.Laws.{IsOfRange, IsOver};
ghost use Rattle.mt_tasks.specs.Adding.{Adds, IsCloseOf};
ghost use Rattle.mt_tasks.specs.Over.{IsCommitOver};
ghost use Rattle.mt_tasks.specs.Sizes.{blank, commit_of, fate_size, no_archive};
ghost use Rattle.mt_types.specs.WellMade.{IsWellMadeFate};
ghost use Rattle.mt_types.specs.declared.command.Command.{Command};
ghost use Rattle.std.specs.Prelude.{◌≡◌, ◌≢◌, ◌≤◌, ℕ, List, false, true, is_some, None, Some};
ghost use Rattle.mt_base.specs.Counts.{NeverFell, Rose};
ghost use Rattle.mt_base.specs.declared.limits.TheConstants.{LAST_MOMENT};
ghost use Rattle.mt_engine.specs.Ready.{EngineGoesOn};
ghost use Rattle.mt_spawn.specs.Children.{SameLive};
ghost use Rattle.mt_tasks.specs.Adding.{Committed, Ended, LeavesEngine};
ghost use Rattle.mt_tasks.specs.Standing.{is_ready_in, waiting};
ghost use Rattle.mt_tasks.specs.Taking.{TakesEnd, TakesOutcome};

use crate::adding::{add, give_up};
use crate::judging::{Judged, judge};
use crate::room::{has_archive_room, has_fate_room, has_number, has_waiting};
use crate::stored::Stored;
use crate::storing::store_fate;
use mt_disk::Disk;
use mt_engine::{Archiving, Engine};
use mt_records::Range;
use mt_spawn::{Left, Spawner};
use mt_types::{Command, Fate, Task};
use std::alloc::{AllocError, Global};

/// What became of a command that was due.
#[derive(Clone, Copy, Debug, PartialEq, Eq)]
pub enum OutcomeEnd {
    /// It was added.
    Added,
    /// It has no room: engine and history are those of before.
    Full,
    /// The spawner failed where it was read, and counted it.
    Unread,
    /// The disk has failed, and the engine is closed. Its disk has the history of before, or that with the command.
    Disk,
    /// Out of memory; or a part of what a child left did not have the length that was told.
    Memory,
}

// Stores the bodies of a fate whose commit has room, and adds it.
fn add_fate<D: Disk, P: Spawner>(
    alloc: Global,
    engine: &mut Engine,
    disk: &mut D,
    spawner: &mut P,
    task: &Task,
    fate: Fate<Range>,
    now: u64,
) -> OutcomeEnd
    requires engine { EngineIsReady D.seen D.may_leave disk.old engine.old }
    requires moment { now ≤ LAST_MOMENT }
    requires ready { is_ready_in engine.old.state task.now ≡ true }
    requires made { IsWellMadeFate fate }
    requires said { IsSaidFate fate }
    requires room { HasRoomFor engine.old (fate_size fate) (commit_of task.now now (blank fate)) }
    ensures state { LeavesEngine result (Committed task.now now engine.old.state) engine.old engine.new }
    ensures takes { (base : State Bytes) (h : History) → IsCurrent (D.seen disk.old) engine.old base h →
        (k : History) × Adds (IsCommitOver (P.told spawner.old) fate task.now now) result base h engine.old (D.seen disk.new) engine.new k
        × LeavesOnly D.moment D.left_since disk.old disk.new (IsBetween base h k) }
    ensures stands { Stands D.seen D.may_leave disk.new engine.new.log }
    ensures keeps { EngineStays D.seen D.faults disk.old disk.new engine.old engine.new }
    ensures same { SameLive (P.seen spawner.old) (P.seen spawner.new) }
    ensures unread { result ≡ OutcomeEnd.Unread → Rose (P.seen spawner.old).faults (P.seen spawner.new).faults }
    ensures faults { NeverFell (P.seen spawner.old).faults (P.seen spawner.new).faults }
    ensures disk { result ≡ OutcomeEnd.Disk → Rose (D.faults disk.old) (D.faults disk.new) }
    ensures rule { P.rule spawner.new ≡ P.rule spawner.old }
{
    has_number(engine, task.job);
    let mut run = engine.begin_run(disk);
    match store_fate(alloc, engine, disk, &mut run, spawner, fate) {
        Stored::Whole(fate) => {
            let command = Command::Commit {
                job: task.job,
                phase: task.phase,
                place: task.place,
                fate,
                moment: now,
            };
            add(alloc, engine, disk, run, command)
        }
        Stored::Failed => give_up(engine, disk, run, OutcomeEnd::Unread),
        Stored::Disk => OutcomeEnd::Disk,
        Stored::Memory => give_up(engine, disk, run, OutcomeEnd::Memory),
    }
}

// Commits a fate, if it has room.
fn commit_fate<D: Disk, P: Spawner>(
    alloc: Global,
    engine: &mut Engine,
    disk: &mut D,
    spawner: &mut P,
    task: &Task,
    fate: Fate<Range>,
    now: u64,
) -> OutcomeEnd
    requires engine { EngineIsReady D.seen D.may_leave disk.old engine.old }
    requires moment { now ≤ LAST_MOMENT }
    requires ready { is_ready_in engine.old.state task.now ≡ true }
    requires made { IsWellMadeFate fate }
    requires said { IsSaidFate fate }
    requires bytes { (g : Fate Bytes) × IsOver (IsOfRange (P.told spawner.old)) fate g }
    ensures state { LeavesEngine result (Committed task.now now engine.old.state) engine.old engine.new }
    ensures takes { (base : State Bytes) (h : History) → IsCurrent (D.seen disk.old) engine.old base h →
        (k : History) × Adds (IsCommitOver (P.told spawner.old) fate task.now now) result base h engine.old (D.seen disk.new) engine.new k
        × LeavesOnly D.moment D.left_since disk.old disk.new (IsBetween base h k) }
    ensures stands { Stands D.seen D.may_leave disk.new engine.new.log }
    ensures keeps { EngineStays D.seen D.faults disk.old disk.new engine.old engine.new }
    ensures same { SameLive (P.seen spawner.old) (P.seen spawner.new) }
    ensures unread { result ≡ OutcomeEnd.Unread → Rose (P.seen spawner.old).faults (P.seen spawner.new).faults }
    ensures faults { NeverFell (P.seen spawner.old).faults (P.seen spawner.new).faults }
    ensures disk { result ≡ OutcomeEnd.Disk → Rose (D.faults disk.old) (D.faults disk.new) }
    ensures rule { P.rule spawner.new ≡ P.rule spawner.old }
{
    match has_fate_room(alloc, engine, task, &fate, now) {
        Ok(true) => add_fate(alloc, engine, disk, spawner, task, fate, now),
        Ok(false) => OutcomeEnd::Full,
        Err(AllocError) => OutcomeEnd::Memory,
    }
}

// Judges what the child of a task left, and commits its fate.
fn commit_outcome<D: Disk, P: Spawner>(
    alloc: Global,
    login: &str,
    engine: &mut Engine,
    disk: &mut D,
    spawner: &mut P,
    task: &Task,
    left: Left,
    now: u64,
) -> OutcomeEnd
    requires engine { EngineIsReady D.seen D.may_leave disk.old engine.old }
    requires moment { now ≤ LAST_MOMENT }
    requires held { P.held spawner.old ≡ Some left }
    requires ready { is_ready_in engine.old.state task.now ≡ true }
    // Over any disk.
    ensures state { LeavesEngine result (Committed task.now now engine.old.state) engine.old engine.new }
    // Over one that tells what it holds.
    ensures takes { TakesOutcome D.seen D.moment D.left_since login.now (P.gives (P.rule spawner.old)) (P.may (P.rule spawner.old)) task.now now left (P.told spawner.old) result disk.old engine.old disk.new engine.new }
    ensures goes_on { EngineGoesOn D.seen D.may_leave D.faults disk.old disk.new engine.old engine.new }
    ensures same { SameLive (P.seen spawner.old) (P.seen spawner.new) }
    ensures unread { result ≡ OutcomeEnd.Unread → Rose (P.seen spawner.old).faults (P.seen spawner.new).faults }
    ensures faults { NeverFell (P.seen spawner.old).faults (P.seen spawner.new).faults }
    ensures disk { result ≡ OutcomeEnd.Disk → Rose (D.faults disk.old) (D.faults disk.new) }
    ensures later { is_some (D.seen disk.old) ≡ true → D.moment disk.old ≤ D.moment disk.new }
    ensures rule { P.rule spawner.new ≡ P.rule spawner.old }
{
    match judge(alloc, login, spawner, left) {
        Judged::Fate(fate) => commit_fate(alloc, engine, disk, spawner, task, fate, now),
        Judged::Failed => OutcomeEnd::Unread,
        Judged::Memory => OutcomeEnd::Memory,
    }
}

/// Judges what the child of a task left, and commits its fate. What is held is let go, whatever becomes of it.
pub fn take_outcome<D: Disk, P: Spawner>(
    alloc: Global,
    login: &str,
    engine: &mut Engine,
    disk: &mut D,
    spawner: &mut P,
    task: &Task,
    left: Left,
    now: u64,
) -> OutcomeEnd
    requires engine { EngineIsReady D.seen D.may_leave disk.old engine.old }
    requires moment { now ≤ LAST_MOMENT }
    requires held { P.held spawner.old ≡ Some left }
    requires ready { is_ready_in engine.old.state task.now ≡ true }
    // Over any disk.
    ensures state { LeavesEngine result (Committed task.now now engine.old.state) engine.old engine.new }
    // Over one that tells what it holds.
    ensures takes { TakesOutcome D.seen D.moment D.left_since login.now (P.gives (P.rule spawner.old)) (P.may (P.rule spawner.old)) task.now now left (P.told spawner.old) result disk.old engine.old disk.new engine.new }
    ensures goes_on { EngineGoesOn D.seen D.may_leave D.faults disk.old disk.new engine.old engine.new }
    ensures same { SameLive (P.seen spawner.old) (P.seen spawner.new) }
    ensures free { P.held spawner.new ≡ None }
    ensures unread { result ≡ OutcomeEnd.Unread → Rose (P.seen spawner.old).faults (P.seen spawner.new).faults }
    ensures faults { NeverFell (P.seen spawner.old).faults (P.seen spawner.new).faults }
    ensures disk { result ≡ OutcomeEnd.Disk → Rose (D.faults disk.old) (D.faults disk.new) }
    ensures later { is_some (D.seen disk.old) ≡ true → D.moment disk.old ≤ D.moment disk.new }
    ensures rule { P.rule spawner.new ≡ P.rule spawner.old }
{
    let end = commit_outcome(alloc, login, engine, disk, spawner, task, left, now);
    // whatever became of it
    spawner.release();
    end
}

// Stores the texts of a job whose end has room, and adds it.
fn add_archive<D: Disk>(
    alloc: Global,
    login: &str,
    engine: &mut Engine,
    disk: &mut D,
    job: u64,
    now: u64,
) -> OutcomeEnd
    requires engine { EngineIsReady D.seen D.may_leave disk.old engine.old }
    requires moment { now ≤ LAST_MOMENT }
    requires waits { waiting engine.old.state ≡ Some job }
    requires room { HasRoomFor engine.old (texts_size login.now engine.old job false now) (Command.Close job false no_archive now) }
    ensures state { LeavesEngine result (Ended job now engine.old.state) engine.old engine.new }
    ensures read { result ≢ OutcomeEnd.Unread }
    ensures takes { TakesEnd D.seen D.moment D.left_since login.now job now result disk.old engine.old disk.new engine.new }
    ensures stands { Stands D.seen D.may_leave disk.new engine.new.log }
    ensures keeps { EngineStays D.seen D.faults disk.old disk.new engine.old engine.new }
    ensures disk { result ≡ OutcomeEnd.Disk → Rose (D.faults disk.old) (D.faults disk.new) }
{
    has_waiting(engine, job);
    let mut run = engine.begin_run(disk);
    match engine.store_archive(alloc, disk, &mut run, login, job, false, now) {
        Archiving::Stored(archive) => {
            let command = Command::Close {
                job,
                cancelled: false,
                archive,
                moment: now,
            };
            add(alloc, engine, disk, run, command)
        }
        Archiving::Full => unreachable!(),
        Archiving::Disk => OutcomeEnd::Disk,
        Archiving::Memory => give_up(engine, disk, run, OutcomeEnd::Memory),
    }
}

/// Ends a job that waits to be finished, with its texts.
pub fn close_job<D: Disk>(
    alloc: Global,
    login: &str,
    engine: &mut Engine,
    disk: &mut D,
    job: u64,
    now: u64,
) -> OutcomeEnd
    requires engine { EngineIsReady D.seen D.may_leave disk.old engine.old }
    requires moment { now ≤ LAST_MOMENT }
    requires waits { waiting engine.old.state ≡ Some job }
    // Over any disk.
    ensures state { LeavesEngine result (Ended job now engine.old.state) engine.old engine.new }
    ensures read { result ≢ OutcomeEnd.Unread }
    // Over one that tells what it holds.
    ensures takes { TakesEnd D.seen D.moment D.left_since login.now job now result disk.old engine.old disk.new engine.new }
    ensures goes_on { EngineGoesOn D.seen D.may_leave D.faults disk.old disk.new engine.old engine.new }
    ensures disk { result ≡ OutcomeEnd.Disk → Rose (D.faults disk.old) (D.faults disk.new) }
    ensures later { is_some (D.seen disk.old) ≡ true → D.moment disk.old ≤ D.moment disk.new }
{
    has_waiting(engine, job);
    match has_archive_room(alloc, login, engine, job, now) {
        Ok(true) => add_archive(alloc, login, engine, disk, job, now),
        Ok(false) => OutcomeEnd::Full,
        Err(AllocError) => OutcomeEnd::Memory,
    }
}
