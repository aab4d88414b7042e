//! The children are waited for.
ghost use Rattle.std.specs.Prelude.{◌≡◌, ◌<◌, ℕ, None, length, option_map};
ghost use Rattle.std.specs.List.{find};
ghost use Rattle.mt_opening.specs.Current.{EngineState};
ghost use Rattle.mt_runner.specs.Attempts.{ArePaired, number_of, task_in};
ghost use Rattle.mt_runner.specs.Attends.{work_side};
ghost use Rattle.mt_runner.specs.Awaiting.{Awaits};
ghost use Rattle.mt_runner.specs.Stale.{is_child};

use crate::runner::{Runner, Started};
use mt_spawn::{Left, Spawner, Ticket, Waited};
use mt_types::Task;
use std::alloc::Global;

/// What a wait for the children found.
#[derive(Debug, PartialEq, Eq, Drop)]
pub(crate) enum Came {
    /// The child of this task has ended, and what it left is held.
    Ended(Task, Left),
    /// No child has ended.
    NotYet,
    /// The spawner failed with a child, which is gone.
    Failed,
    /// Out of memory with a child, which is gone.
    Lost,
    /// Out of memory. No child is gone.
    Memory,
}

impl Runner {
    // What a child that is kept was started for.
    fn task_of(&self, ticket: Ticket) -> Option<Task>
        ensures { result ≡ option_map task_in (find (is_child ticket.number) self.now.kept) }
    {
        for started in &self.kept {
            if started.ticket.number == ticket.number {
                return Some(started.task);
            }
        }
        None
    }

    // Waits for a child to end, whichever it is, and keeps it no longer. A wait that isn't patient only looks.
    pub(crate) fn await_one<P: Spawner>(
        &mut self,
        alloc: Global,
        spawner: &mut P,
        patient: bool,
    ) -> Came
        requires some { 0 < length self.old.kept }
        requires free { P.held spawner.old ≡ None }
        requires paired { ArePaired self.old.kept (P.seen spawner.old).live }
        ensures awaits { (e : EngineState) (faults : ℕ) → Awaits (P.may (P.rule spawner.old)) (work_side self.old.kept (P.seen spawner.old) e faults) result (P.held spawner.new) (P.told spawner.new)
            (work_side self.new.kept (P.seen spawner.new) e faults) }
        ensures rule { P.rule spawner.new ≡ P.rule spawner.old }
        ensures slots { self.new.slots ≡ self.old.slots }
        ensures login { self.new.login ≡ self.old.login }
    {
        let _ = &self.login;
        match spawner.wait(alloc, patient) {
            Waited::Ended { ticket, left } => {
                let Some(task) = self.task_of(ticket) else {
                    unreachable!()
                };
                self.forget(ticket);
                Came::Ended(task, left)
            }
            Waited::NotYet => Came::NotYet,
            Waited::Failed(ticket) => {
                self.forget(ticket);
                Came::Failed
            }
            Waited::Lost(ticket) => {
                self.forget(ticket);
                Came::Lost
            }
            Waited::Memory => Came::Memory,
        }
    }
}
