//! Turns and drains.
ghost use Rattle.std.specs.Prelude.{◌≡◌, ◌≢◌, ◌⊎◌, ◌↔◌, ◌<◌, ◌≤◌, ℕ, [], None, Some, true, false, is_some};
ghost use Rattle.std.specs.List.{AllByRecursion, Contains};
ghost use Rattle.mt_base.specs.Counts.{NeverFell, Rose};
ghost use Rattle.mt_base.specs.Lists.{IsPrefixOf};
ghost use Rattle.mt_base.specs.declared.limits.TheConstants.{LAST_MOMENT};
ghost use Rattle.mt_disk.specs.CrashModel.{LeavesOnly};
ghost use Rattle.mt_opening.specs.Current.{EngineIsReady, IsBetween, IsCurrent, Over, told_size};
ghost use Rattle.mt_opening.specs.History.{Bytes, History};
ghost use Rattle.mt_engine.specs.Ready.{EngineGoesOn};
ghost use Rattle.mt_model.specs.CommandStep.{replay};
ghost use Rattle.mt_model.specs.Lawful.{Lawful};
ghost use Rattle.mt_model.specs.State.{State};
ghost use Rattle.mt_records.specs.Fate.{fate};
ghost use Rattle.mt_tasks.specs.Standing.{is_ready_in, ready_tasks, waiting};
ghost use Rattle.mt_runner.specs.Account.{account_side, asked_again, tasks_of, told_time};
ghost use Rattle.mt_runner.specs.Attempts.{ArePaired, Attempt, attempts};
ghost use Rattle.mt_runner.specs.Attends.{Attends, Finishes, Works, is_ready_now, work_side};
ghost use Rattle.mt_runner.specs.AtWork.{AtWork};
ghost use Rattle.mt_runner.specs.ByAnswer.{Company, GoesOn, HasTicket, IsLoss, OneFewer};
ghost use Rattle.mt_runner.specs.Living.{LivesTo};
ghost use Rattle.mt_runner.specs.Moves.{MovesOn, end_of_job, end_of_task};
ghost use Rattle.mt_runner.specs.Progress.{Progressed};
ghost use Rattle.mt_runner.specs.Turning.{Drained, TakesTurn, TurnImages, working_of};

use crate::awaiting::Came;
use crate::fill::Filled;
use crate::runner::Runner;
use crate::turn::Turn;
use mt_disk::Disk;
use mt_edge::Clock;
use mt_engine::Engine;
use mt_spawn::Spawner;
use mt_tasks::{OutcomeEnd, close_job, take_outcome};
use mt_types::Task;
use std::alloc::Global;

// How a turn ends behind the end of a task.
fn end_of_task(end: OutcomeEnd, task: Task) -> Turn
    ensures { result ≡ end_of_task task end }
{
    match end {
        OutcomeEnd::Added => Turn::Committed(task),
        OutcomeEnd::Full => Turn::Full,
        OutcomeEnd::Unread => Turn::SpawnFault,
        OutcomeEnd::Disk => Turn::Disk,
        OutcomeEnd::Memory => Turn::Memory,
    }
}

// How a turn ends behind the end of a job, which is not read.
fn end_of_job(end: OutcomeEnd, job: u64) -> Turn
    ensures { result ≡ end_of_job job end }
{
    match end {
        OutcomeEnd::Added => Turn::Closed(job),
        OutcomeEnd::Full => Turn::Full,
        OutcomeEnd::Disk => Turn::Disk,
        OutcomeEnd::Unread | OutcomeEnd::Memory => Turn::Memory,
    }
}

impl Runner {
    // The work of a turn where no job waits to be finished and the task of each child is ready: slots are filled, a child is waited
    // for, and what it left is committed.
    fn work<D: Disk, P: Spawner>(
        &mut self,
        alloc: Global,
        engine: &mut Engine,
        disk: &mut D,
        spawner: &mut P,
        now: u64,
        patient: bool,
    ) -> Turn
        requires engine { EngineIsReady D.seen D.may_leave disk.old engine.old }
        requires free { P.held spawner.old ≡ None }
        requires paired { ArePaired self.old.kept (P.seen spawner.old).live }
        requires ready { AllByRecursion (λ x. is_ready_now engine.old.state x ≡ true) (attempts self.old.kept (P.seen spawner.old).live) }
        requires waits { waiting engine.old.state ≡ None }
        requires lawful { Lawful engine.old.state }
        requires moment { now ≤ LAST_MOMENT }
        ensures works { Works self.old.slots now (attempts self.old.kept (P.seen spawner.old).live) (work_side self.old.kept (P.seen spawner.old) engine.old (D.faults disk.old)) result
            (work_side self.new.kept (P.seen spawner.new) engine.new (D.faults disk.new)) }
        ensures moves { MovesOn D.seen D.moment D.left_since self.old.login (P.gives (P.rule spawner.old)) (P.may (P.rule spawner.old)) now disk.old
            (work_side self.old.kept (P.seen spawner.old) engine.old (D.faults disk.old)) result disk.new (work_side self.new.kept (P.seen spawner.new) engine.new (D.faults disk.new)) }
        ensures goes_on { EngineGoesOn D.seen D.may_leave D.faults disk.old disk.new engine.old engine.new }
        ensures paired { ArePaired self.new.kept (P.seen spawner.new).live }
        ensures free { P.held spawner.new ≡ None }
        ensures faults { NeverFell (P.seen spawner.old).faults (P.seen spawner.new).faults }
        ensures rule { P.rule spawner.new ≡ P.rule spawner.old }
        ensures slots { self.new.slots ≡ self.old.slots }
        ensures login { self.new.login ≡ self.old.login }
    {
        let filled = self.fill(alloc, engine, disk, spawner);
        self.holds();
        match filled {
            Filled::Whole => {}
            Filled::SpawnFault => return Turn::SpawnFault,
            Filled::Disk => return Turn::Disk,
            Filled::Memory => return Turn::Memory,
        }
        if self.kept.is_empty() {
            return Turn::Idle;
        }
        let (task, left) = match self.await_one(alloc, spawner, patient) {
            Came::Ended(task, left) => (task, left),
            Came::NotYet => return Turn::NotYet,
            Came::Failed => return Turn::SpawnFault,
            Came::Lost => return Turn::Memory,
            Came::Memory => return Turn::Memory,
        };
        let login = self.login.as_str();
        let end = take_outcome(alloc, login, engine, disk, spawner, &task, left, now);
        end_of_task(end, task)
    }

    // One turn, at this moment.
    fn one_turn<D: Disk, P: Spawner>(
        &mut self,
        alloc: Global,
        engine: &mut Engine,
        disk: &mut D,
        spawner: &mut P,
        now: u64,
        patient: bool,
    ) -> Turn
        requires engine { EngineIsReady D.seen D.may_leave disk.old engine.old }
        requires free { P.held spawner.old ≡ None }
        requires paired { ArePaired self.old.kept (P.seen spawner.old).live }
        requires moment { now ≤ LAST_MOMENT }
        ensures lawful { Lawful engine.old.state }
        ensures attends { Attends self.old.slots now (work_side self.old.kept (P.seen spawner.old) engine.old (D.faults disk.old)) result
            (work_side self.new.kept (P.seen spawner.new) engine.new (D.faults disk.new)) }
        ensures progress { Progressed self.old.slots engine.old.state (work_side self.old.kept (P.seen spawner.old) engine.old (D.faults disk.old)) result
            (work_side self.new.kept (P.seen spawner.new) engine.new (D.faults disk.new)) }
        ensures moves { MovesOn D.seen D.moment D.left_since self.old.login (P.gives (P.rule spawner.old)) (P.may (P.rule spawner.old)) now disk.old
            (work_side self.old.kept (P.seen spawner.old) engine.old (D.faults disk.old)) result disk.new (work_side self.new.kept (P.seen spawner.new) engine.new (D.faults disk.new)) }
        ensures goes_on { EngineGoesOn D.seen D.may_leave D.faults disk.old disk.new engine.old engine.new }
        ensures paired { ArePaired self.new.kept (P.seen spawner.new).live }
        ensures free { P.held spawner.new ≡ None }
        ensures faults { NeverFell (P.seen spawner.old).faults (P.seen spawner.new).faults }
        ensures rule { P.rule spawner.new ≡ P.rule spawner.old }
        ensures slots { self.new.slots ≡ self.old.slots }
        ensures login { self.new.login ≡ self.old.login }
    {
        self.holds();
        self.drop_stale(engine, spawner);
        let Some(job) = engine.jobs().waits_finish() else {
            return self.work(alloc, engine, disk, spawner, now, patient);
        };
        let login = self.login.as_str();
        let end = close_job(alloc, login, engine, disk, job, now);
        end_of_job(end, job)
    }

    /// One turn, at a moment of its own. Children go whose tasks aren't ready any more. Where a job waits to be finished, it is closed
    /// with its texts. Else slots are filled and a child is waited for, and what it left is committed. A wait that isn't patient only
    /// looks. `Disk` and `Memory` may leave the engine closed: then it is to be opened anew. A turn that is idle makes no call of the disk.
    pub fn turn<D: Disk, P: Spawner, C: Clock>(
        &mut self,
        alloc: Global,
        engine: &mut Engine,
        disk: &mut D,
        spawner: &mut P,
        clock: &mut C,
        patient: bool,
    ) -> Turn
        requires ready { EngineIsReady D.seen D.may_leave disk.old engine.old }
        requires at_work { AtWork (P.may (P.rule spawner.old)) (P.gives (P.rule spawner.old)) (P.seen spawner.old) (P.held spawner.old) self.old (D.seen disk.old) engine.old }
        // Over any disk and any spawner: the children, the slots and the state.
        ensures attends { (now : ℕ) × C.gives (C.rule clock.old) (C.asked clock.old) now
            × Attends self.old.slots now (work_side self.old.kept (P.seen spawner.old) engine.old (D.faults disk.old)) result (work_side self.new.kept (P.seen spawner.new) engine.new (D.faults disk.new)) }
        // Over each base and history: how the account goes on, and what a crash leaves.
        ensures takes { (base : State Bytes) (h : History) → Over (D.seen disk.old) engine.old base h → (k : History) ×
            TakesTurn (working_of (is_some (D.seen disk.old)) (C.gives (C.rule clock.old)) (P.gives (P.rule spawner.old)) self.old.login self.old.slots engine.old.log.limit base)
            (account_side h (told_size (D.seen disk.old) engine.old) (D.faults disk.old) (told_time (is_some (D.seen disk.old)) (D.moment disk.old)) (C.asked clock.old) (tasks_of (P.seen spawner.old))) result
            (account_side k (told_size (D.seen disk.new) engine.new) (D.faults disk.new) (told_time (is_some (D.seen disk.old)) (D.moment disk.new)) (C.asked clock.new) (tasks_of (P.seen spawner.new)))
            × (engine.new.log.closed ≡ false → Over (D.seen disk.new) engine.new base k) × IsPrefixOf h k
            × (is_some (D.seen disk.old) ≡ true → TurnImages result base k (D.may_leave disk.new))
            × (is_some (D.seen disk.old) ≡ true → LeavesOnly D.moment D.left_since disk.old disk.new (IsBetween base h k)) }
        // Over each base and history: it is a list of steps of a life, and a crash at any moment leaves what some of them lead to.
        ensures lives { (base : State Bytes) (h : History) → IsCurrent (D.seen disk.old) engine.old base h
            → LivesTo self.old.login (P.gives (P.rule spawner.old)) (fate self.old.login) D.seen D.may_leave D.moment D.left_since disk.old disk.new engine.new result base h self.old.kept self.new.kept }
        ensures at_work { AtWork (P.may (P.rule spawner.new)) (P.gives (P.rule spawner.new)) (P.seen spawner.new) (P.held spawner.new) self.new (D.seen disk.new) engine.new }
        ensures goes_on { EngineGoesOn D.seen D.may_leave D.faults disk.old disk.new engine.old engine.new }
        ensures open { GoesOn result engine.new.log.closed }
        ensures asked { C.asked clock.new ≡ asked_again (C.asked clock.old) }
        ensures company { Company self.old.slots engine.old.state (P.seen spawner.old).company result (P.seen spawner.new).company }
        ensures one_fewer { OneFewer self.old.slots engine.old.state result self.new.kept }
        ensures idle { (result ≡ Turn.Idle) ↔ ((waiting engine.old.state ≡ None) × (ready_tasks engine.old.state ≡ [])) }
        ensures stay { (x : Attempt P.Fate) → Contains (attempts self.old.kept (P.seen spawner.old).live) x → is_ready_in engine.old.state x.task ≡ true → is_ready_in engine.new.state x.task ≡ true
            → IsLoss result ⊎ HasTicket x.ticket self.new.kept }
        ensures same { (self.new.slots ≡ self.old.slots) × (self.new.login ≡ self.old.login) }
        ensures disk { result ≡ Turn.Disk → Rose (D.faults disk.old) (D.faults disk.new) }
        ensures rule { (P.rule spawner.new ≡ P.rule spawner.old) × (C.rule clock.new ≡ C.rule clock.old) }
    {
        let now = clock.now();
        self.one_turn(alloc, engine, disk, spawner, now, patient)
    }

    /// Turns, until one adds no command, and at most so many. The answer is that of the last. It ends with a turn that adds a command
    /// only where so many were taken.
    pub fn drain<D: Disk, P: Spawner, C: Clock>(
        &mut self,
        alloc: Global,
        engine: &mut Engine,
        disk: &mut D,
        spawner: &mut P,
        clock: &mut C,
        most: u64,
        patient: bool,
    ) -> Turn
        requires ready { EngineIsReady D.seen D.may_leave disk.old engine.old }
        requires at_work { AtWork (P.may (P.rule spawner.old)) (P.gives (P.rule spawner.old)) (P.seen spawner.old) (P.held spawner.old) self.old (D.seen disk.old) engine.old }
        requires some { 0 < most }
        ensures takes { (base : State Bytes) (h : History) → Over (D.seen disk.old) engine.old base h → (k : History) ×
            Drained (working_of (is_some (D.seen disk.old)) (C.gives (C.rule clock.old)) (P.gives (P.rule spawner.old)) self.old.login self.old.slots engine.old.log.limit base) most
            (account_side h (told_size (D.seen disk.old) engine.old) (D.faults disk.old) (told_time (is_some (D.seen disk.old)) (D.moment disk.old)) (C.asked clock.old) (tasks_of (P.seen spawner.old))) result
            (account_side k (told_size (D.seen disk.new) engine.new) (D.faults disk.new) (told_time (is_some (D.seen disk.old)) (D.moment disk.new)) (C.asked clock.new) (tasks_of (P.seen spawner.new)))
            × (engine.new.log.closed ≡ false → Over (D.seen disk.new) engine.new base k) × IsPrefixOf h k
            × (is_some (D.seen disk.old) ≡ true → TurnImages result base k (D.may_leave disk.new))
            × (is_some (D.seen disk.old) ≡ true → LeavesOnly D.moment D.left_since disk.old disk.new (IsBetween base h k)) }
        // Over each base and history: it is a list of steps of a life, and a crash at any moment leaves what some of them lead to.
        ensures lives { (base : State Bytes) (h : History) → IsCurrent (D.seen disk.old) engine.old base h
            → LivesTo self.old.login (P.gives (P.rule spawner.old)) (fate self.old.login) D.seen D.may_leave D.moment D.left_since disk.old disk.new engine.new result base h self.old.kept self.new.kept }
        ensures at_work { AtWork (P.may (P.rule spawner.new)) (P.gives (P.rule spawner.new)) (P.seen spawner.new) (P.held spawner.new) self.new (D.seen disk.new) engine.new }
        ensures goes_on { EngineGoesOn D.seen D.may_leave D.faults disk.old disk.new engine.old engine.new }
        ensures open { GoesOn result engine.new.log.closed }
        ensures same { (self.new.slots ≡ self.old.slots) × (self.new.login ≡ self.old.login) }
        ensures disk { result ≡ Turn.Disk → Rose (D.faults disk.old) (D.faults disk.new) }
        ensures rule { (P.rule spawner.new ≡ P.rule spawner.old) × (C.rule clock.new ≡ C.rule clock.old) }
    {
        let mut left = most;
        'turns: loop {
            let turn = self.turn(alloc, engine, disk, spawner, clock, patient);
            left -= 1;
            if left == 0 || !turn.adds() {
                return turn;
            }
        }
    }
}
