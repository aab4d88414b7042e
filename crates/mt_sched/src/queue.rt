//! The queue of a job that runs: its phases, and whether its input has ended.
ghost use Rattle.std.specs.Prelude.{◌≡◌};
ghost use Rattle.std.specs.List.{list_all};
ghost use Rattle.mt_sched.specs.Plan.{is_complete_phase};
ghost use Rattle.mt_sched.specs.PlanSteps.{is_complete_after};

use crate::phase::PhaseQueue;
use mt_types::{Phase, PhaseKind, Task};
use std::alloc::{AllocError, Global};
use std::marker::Model;

/// What is not committed of a job that runs.
#[derive(Drop)]
pub struct Queue {
    phases: Vec<PhaseQueue>,
    ended: bool,
}

impl Model for Queue {
    ghost use Rattle.mt_sched.specs.Plan.{Plan, AreNumbered};

    ghost Value = { Plan };

    ghost view = { λ q. record { phases = q.phases.items; ended = q.ended } };

    ghost invariant = { λ q. AreNumbered q.phases.items };
}

// Whether each place of each of these phases is committed.
#[tactic(auto, using(crate::proofs::Phases::all_on, crate::proofs::Phases::all_stopped, crate::proofs::Phases::all_done))]
fn are_complete(queues: &[PhaseQueue]) -> bool
    ensures { result ≡ list_all is_complete_phase queues.now }
{
    for queue in queues {
        let complete = queue.is_complete();
        if !complete {
            return false;
        }
    }
    true
}

// Whether each place of each of these phases is committed once this place of the phase of this number is.
#[tactic(auto, using(crate::proofs::Phases::after_on, crate::proofs::Phases::after_stopped, crate::proofs::Phases::after_done))]
fn are_complete_after(queues: &[PhaseQueue], phase: u32, place: u64) -> bool
    ensures { result ≡ list_all (is_complete_after phase place) queues.now }
{
    for queue in queues {
        let complete = queue.is_complete_after(phase, place);
        if !complete {
            return false;
        }
    }
    true
}

impl Queue {
    ghost use Rattle.std.specs.Prelude.{◌≡◌, ◌<◌, ◌↔◌, ℕ, false, IfOk, IsTrue, OnOk, OnErr, length, take};
    ghost use Rattle.std.specs.List.{list_all};
    ghost use Rattle.mt_sched.specs.Plan.{first_but, has_ready_in, has_ready_phase, is_committed_in, is_complete_phase, is_complete_plan, is_ready_in, is_task_in, may_begin_in, ready_in, ready_of_phase, waits_in};
    ghost use Rattle.mt_sched.specs.PlanOfJob.{kinds_of};
    ghost use Rattle.mt_sched.specs.PlanSteps.{committed_in, ended_plan, first_plan, grown};

    /// The queue of a job of these phases that was just made. It fails for want of memory, and for 2^32 phases or more,
    /// which no job has.
    pub fn of(alloc: Global, phases: &[Phase]) -> Result<Queue, AllocError>
        ensures { IfOk result (λ q. q ≡ first_plan (kinds_of phases.now)) }
    {
        let mut queues = Vec::new(alloc);
        let mut number: u32 = 0;
        for phase in phases {
            queues.push(PhaseQueue::new(alloc, number, phase.kind))?;
            let Some(next) = number.checked_add(1) else {
                return Err(AllocError);
            };
            number = next;
        }
        Ok(Queue {
            phases: queues,
            ended: false,
        })
    }

    /// So many items more are fed to a phase, if there is one. At the 2^64th place nothing has changed. Takes no memory.
    pub fn feed(&mut self, phase: u32, count: u64) -> Result<(), AllocError>
        ensures ok { OnOk result (self.new ≡ grown self.old phase count) }
        ensures err { OnErr result (self.new ≡ self.old) }
    {
        let index = phase as usize;
        if index < self.phases.len() {
            self.phases[index].feed(count)?;
        }
        Ok(())
    }

    /// A task is committed. On want of memory nothing has changed.
    pub fn commit(&mut self, phase: u32, place: u64) -> Result<(), AllocError>
        ensures ok { OnOk result (self.new ≡ committed_in self.old phase place) }
        ensures err { OnErr result (self.new ≡ self.old) }
    {
        let index = phase as usize;
        if index < self.phases.len() {
            self.phases[index].commit(place)?;
        }
        Ok(())
    }

    /// Whether it has a phase of this number. Where it has none, nothing that is fed to it counts.
    pub fn has_phase(&self, phase: u32) -> bool
        ensures phases { IsTrue result ↔ (phase < length self.now.phases) }
        ensures fed { result ≡ false → (count : ℕ) → grown self.now phase count ≡ self.now }
    {
        (phase as usize) < self.phases.len()
    }

    /// Its input ends.
    pub fn end(&mut self)
        ensures { self.new ≡ ended_plan self.old }
    {
        self.ended = true;
    }

    // Whether each task of the first phases, so many, is committed.
    fn is_complete_before(&self, phase: usize) -> bool
        ensures { result ≡ list_all is_complete_phase (take phase self.now.phases) }
    {
        if phase < self.phases.len() {
            are_complete(&self.phases[..phase])
        } else {
            are_complete(&self.phases)
        }
    }

    /// Whether each task is committed.
    pub fn is_complete(&self) -> bool
        ensures { result ≡ is_complete_plan self.now }
    {
        are_complete(&self.phases)
    }

    /// Whether it waits to be finished: its input has ended and each task is committed.
    pub fn waits(&self) -> bool
        ensures { result ≡ waits_in self.now }
    {
        self.ended && self.is_complete()
    }

    /// Whether it waits to be finished once this task is committed. Takes no memory.
    pub fn waits_after(&self, phase: u32, place: u64) -> bool
        ensures { result ≡ waits_in (committed_in self.now phase place) }
    {
        self.ended && are_complete_after(&self.phases, phase, place)
    }

    // Whether nothing holds up a phase of this kind: a reducer waits for the end of the input and for all earlier phases.
    fn may_begin(&self, phase: u32, kind: PhaseKind) -> bool
        ensures { result ≡ may_begin_in self.now phase kind }
    {
        match kind {
            PhaseKind::Map => true,
            PhaseKind::Reduce { count: _ } => self.ended && self.is_complete_before(phase as usize),
        }
    }

    /// Whether it has this task, and nothing holds it up.
    pub fn is_task(&self, phase: u32, place: u64) -> bool
        ensures { result ≡ is_task_in self.now phase place }
    {
        match self.phases.get(phase as usize) {
            Some(queue) => self.may_begin(phase, queue.kind()) && place < queue.places(),
            None => false,
        }
    }

    /// Whether the place is one of the phase, and is committed.
    pub fn is_committed(&self, phase: u32, place: u64) -> bool
        ensures { result ≡ is_committed_in self.now phase place }
    {
        match self.phases.get(phase as usize) {
            Some(queue) => place < queue.places() && !queue.is_open(place),
            None => false,
        }
    }

    /// Whether the task may run now.
    pub fn is_ready(&self, phase: u32, place: u64) -> bool
        ensures { result ≡ is_ready_in self.now phase place }
    {
        match self.phases.get(phase as usize) {
            Some(queue) => self.may_begin(phase, queue.kind()) && queue.is_open(place),
            None => false,
        }
    }

    // Whether a task of this phase of it is ready.
    fn has_ready_phase(&self, queue: &PhaseQueue) -> bool
        ensures { result ≡ has_ready_phase self.now queue.now }
    {
        self.may_begin(queue.phase(), queue.kind()) && !queue.is_complete()
    }

    /// Whether a task is ready.
    #[tactic(auto, using(crate::proofs::Phases::any_on, crate::proofs::Phases::any_found, crate::proofs::Phases::any_done))]
    pub fn has_ready(&self) -> bool
        ensures { result ≡ has_ready_in self.now }
    {
        for queue in &self.phases {
            let ready = self.has_ready_phase(queue);
            if ready {
                return true;
            }
        }
        false
    }

    // The first ready task of this phase of it that is not among these.
    fn first_of(&self, job: u64, queue: &PhaseQueue, skip: &[Task]) -> Option<Task>
        ensures { result ≡ first_but skip.now (ready_of_phase job self.now queue.now) }
    {
        if self.may_begin(queue.phase(), queue.kind()) {
            queue.first(job, skip)
        } else {
            None
        }
    }

    /// The first ready task, by phase and then by place, that is not among these. Takes no memory.
    #[tactic(auto, using(crate::proofs::Phases::ready_on, crate::proofs::Phases::ready_found, crate::proofs::Phases::ready_done))]
    pub fn first(&self, job: u64, skip: &[Task]) -> Option<Task>
        ensures { result ≡ first_but skip.now (ready_in job self.now) }
    {
        for queue in &self.phases {
            let found = self.first_of(job, queue, skip);
            if found.is_some() {
                return found;
            }
        }
        None
    }
}
