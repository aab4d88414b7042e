//! A runner and what it keeps.
ghost use Rattle.std.specs.Prelude.{◌≡◌, ◌<◌, ◌≤◌, IfOk, [], vec_capacity};
ghost use Rattle.mt_runner.specs.Attempts.{Holds};

use mt_base::Text;
use mt_spawn::Ticket;
use mt_types::Task;
use std::alloc::{AllocError, Global};
use std::marker::Model;

/// A child that runs a task.
#[derive(Clone, Copy, Debug, PartialEq, Eq)]
pub struct Started {
    /// The child.
    pub ticket: Ticket,
    /// What it runs.
    pub task: Task,
}

/// It keeps a child for each task that runs, as many as it has slots.
#[derive(Drop)]
pub struct Runner {
    pub(crate) login: Text,
    pub(crate) slots: u64,
    pub(crate) kept: Vec<Started>,
    // The tasks of those that are kept, written anew before they are asked for.
    pub(crate) busy: Vec<Task>,
    ghost room: { slots ≤ vec_capacity kept },
    ghost spare: { slots ≤ vec_capacity busy },
}

impl Model for Runner {
    ghost use Rattle.std.specs.Prelude.{◌≤◌, ◌<◌, length, map, eqb};
    ghost use Rattle.std.specs.List.{IsDistinct};
    ghost use Rattle.mt_sched.specs.Plan.{is_same_task};
    ghost use Rattle.mt_runner.specs.Attempts.{RunnerState, number_of, task_in};

    ghost Value = { RunnerState };

    ghost view = { λ r. record { login = r.login; slots = r.slots; kept = r.kept.items } };

    ghost invariant = { λ r. (0 < r.slots) × (length r.kept.items ≤ r.slots) × IsDistinct eqb (map number_of r.kept.items) × IsDistinct is_same_task (map task_in r.kept.items) };
}

impl Runner {
    /// A runner that has started nothing, with at least one slot.
    pub fn new(alloc: Global, login: &str, slots: u64) -> Result<Runner, AllocError>
        requires { 0 < slots }
        ensures { IfOk result (λ r. r ≡ record { login = login.now; slots = slots; kept = [] }) }
    {
        let kept = Vec::with_capacity(alloc, slots as usize)?;
        let busy = Vec::with_capacity(alloc, slots as usize)?;
        Ok(Runner {
            login: Text::from_str(alloc, login)?,
            slots,
            kept,
            busy,
        })
    }

    // What holds of any runner.
    pub(crate) fn holds(&self)
        ensures { Holds self.now }
    {
        let _ = &self.login;
    }
}
