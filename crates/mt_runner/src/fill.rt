//! Slots are filled.
ghost use Rattle.std.specs.Prelude.{◌≡◌, ◌<◌, ◌≤◌, ◌+◌, ◌==◌, [], ◌∷◌, ◌++◌, IfSome, None, false, true, length, map, vec_capacity};
ghost use Rattle.std.specs.List.{list_any};
ghost use Rattle.mt_sched.specs.Plan.{first_but, has_task};
ghost use Rattle.mt_base.specs.Counts.{NeverFell};
ghost use Rattle.mt_disk.specs.CrashModel.{OnlyRead};
ghost use Rattle.mt_opening.specs.Current.{EngineIsReady};
ghost use Rattle.mt_tasks.specs.Right.{IsRightNow};
ghost use Rattle.mt_tasks.specs.Standing.{is_ready_in, ready_tasks};
ghost use Rattle.mt_runner.specs.Attempts.{ArePaired, number_of, task_in};
ghost use Rattle.mt_runner.specs.Attends.{work_side};
ghost use Rattle.mt_runner.specs.Filling.{Begins, Fills};

use crate::runner::{Runner, Started};
use mt_disk::Disk;
use mt_engine::Engine;
use mt_spawn::{Spawner, Ticket};
use mt_tasks::{Launched, launch};
use mt_types::Task;
use std::alloc::Global;

/// What became of a start.
#[derive(Clone, Copy, Debug, PartialEq, Eq)]
pub(crate) enum Begun {
    /// A child was started.
    Began,
    /// No task is ready that has no child.
    NoTask,
    /// The spawner failed.
    SpawnFault,
    /// The disk failed.
    Disk,
    /// Out of memory.
    Memory,
}

/// What became of the starts.
#[derive(Clone, Copy, Debug, PartialEq, Eq)]
pub(crate) enum Filled {
    /// All slots have a child, or all ready tasks.
    Whole,
    /// The spawner failed.
    SpawnFault,
    /// The disk failed.
    Disk,
    /// Out of memory.
    Memory,
}

// Writes down the tasks of these children.
fn list_tasks(kept: &[Started], busy: &mut Vec<Task>)
    requires room { length kept.now ≤ vec_capacity busy.old }
    ensures tasks { busy.new.items ≡ map task_in kept.now }
    ensures room { vec_capacity busy.old ≤ vec_capacity busy.new }
{
    busy.clear();
    for started in kept {
        match busy.push(started.task) {
            Ok(()) => {}
            Err(_) => unreachable!(),
        }
    }
}

impl Runner {
    // Keeps a child, whose ticket and task no other has.
    fn keep(&mut self, ticket: Ticket, task: Task)
        requires room { length self.old.kept < self.old.slots }
        requires fresh { list_any (λ n. ticket.number == n) (map number_of self.old.kept) ≡ false }
        requires new_task { has_task (map task_in self.old.kept) task ≡ false }
        ensures kept { self.new.kept ≡ self.old.kept ++ record { ticket = ticket; task = task } ∷ [] }
        ensures slots { self.new.slots ≡ self.old.slots }
        ensures login { self.new.login ≡ self.old.login }
    {
        match self.kept.push(Started { ticket, task }) {
            Ok(()) => {}
            Err(_) => unreachable!(),
        }
    }

    // The first ready task that has no child.
    fn next_task(&mut self, engine: &Engine) -> Option<Task>
        ensures next { result ≡ first_but (map task_in self.old.kept) (ready_tasks engine.now.state) }
        ensures ready { IfSome result (λ t. is_ready_in engine.now.state t ≡ true) }
        ensures same { self.new ≡ self.old }
    {
        list_tasks(self.kept.as_slice(), &mut self.busy);
        engine.jobs().next_ready(self.busy.as_slice())
    }

    // Starts a child for the first ready task that has none.
    fn start_next<D: Disk, P: Spawner>(
        &mut self,
        alloc: Global,
        engine: &Engine,
        disk: &mut D,
        spawner: &mut P,
    ) -> Begun
        requires engine { EngineIsReady D.seen D.may_leave disk.old engine.now }
        requires free { P.held spawner.old ≡ None }
        requires paired { ArePaired self.old.kept (P.seen spawner.old).live }
        requires room { length self.old.kept < self.old.slots }
        ensures begins { Begins (IsRightNow self.old.login (P.gives (P.rule spawner.old)) (P.may (P.rule spawner.old)) (D.seen disk.old) engine.now) engine.now.state
            (work_side self.old.kept (P.seen spawner.old) engine.now (D.faults disk.old)) result (work_side self.new.kept (P.seen spawner.new) engine.now (D.faults disk.new)) }
        ensures more { result ≡ Begun.Began → length self.new.kept ≡ length self.old.kept + 1 }
        ensures read { OnlyRead D.seen D.may_leave D.moment D.left_since disk.old disk.new }
        ensures stays { D.stays disk.old disk.new }
        ensures faults { NeverFell (D.faults disk.old) (D.faults disk.new) }
        ensures free { P.held spawner.new ≡ None }
        ensures rule { P.rule spawner.new ≡ P.rule spawner.old }
        ensures slots { self.new.slots ≡ self.old.slots }
        ensures login { self.new.login ≡ self.old.login }
    {
        let Some(task) = self.next_task(engine) else {
            return Begun::NoTask;
        };
        match launch(alloc, self.login.as_str(), engine, disk, spawner, &task) {
            Launched::Began(ticket) => {
                self.keep(ticket, task);
                Begun::Began
            }
            Launched::Failed => Begun::SpawnFault,
            Launched::InputFailed => Begun::Disk,
            Launched::Memory => Begun::Memory,
        }
    }

    // Starts children for ready tasks while there are slots.
    pub(crate) fn fill<D: Disk, P: Spawner>(
        &mut self,
        alloc: Global,
        engine: &Engine,
        disk: &mut D,
        spawner: &mut P,
    ) -> Filled
        requires engine { EngineIsReady D.seen D.may_leave disk.old engine.now }
        requires free { P.held spawner.old ≡ None }
        requires paired { ArePaired self.old.kept (P.seen spawner.old).live }
        ensures fills { Fills (IsRightNow self.old.login (P.gives (P.rule spawner.old)) (P.may (P.rule spawner.old)) (D.seen disk.old) engine.now) engine.now.state self.old.slots
            (work_side self.old.kept (P.seen spawner.old) engine.now (D.faults disk.old)) result (work_side self.new.kept (P.seen spawner.new) engine.now (D.faults disk.new)) }
        ensures read { OnlyRead D.seen D.may_leave D.moment D.left_since disk.old disk.new }
        ensures stays { D.stays disk.old disk.new }
        ensures faults { NeverFell (D.faults disk.old) (D.faults disk.new) }
        ensures free { P.held spawner.new ≡ None }
        ensures rule { P.rule spawner.new ≡ P.rule spawner.old }
        ensures slots { self.new.slots ≡ self.old.slots }
        ensures login { self.new.login ≡ self.old.login }
    {
        while (self.kept.len() as u64) < self.slots {
            match self.start_next(alloc, engine, disk, spawner) {
                Begun::Began => {}
                Begun::NoTask => return Filled::Whole,
                Begun::SpawnFault => return Filled::SpawnFault,
                Begun::Disk => return Filled::Disk,
                Begun::Memory => return Filled::Memory,
            }
        }
        Filled::Whole
    }
}
