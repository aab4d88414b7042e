//! The queues of all jobs that run, by their numbers.
ghost use Rattle.std.specs.Prelude.{◌≡◌, true, OnOk, OnErr};
ghost use Rattle.std.specs.List.{flat_map};
ghost use Rattle.std.specs.List.Sorted.{IsStrictlySortedBy};
ghost use Rattle.std.specs.Ordering.{nat_cmp};
ghost use Rattle.mt_sched.specs.Plans.{HasAlso, HasSame, HasWhere, ready_at};
ghost use Rattle.mt_sched.specs.Plan.{first_but};

use crate::queue::Queue;
use mt_types::{Phase, Task};
use std::alloc::{AllocError, Global};
use std::collections::{BTreeMap, BTreeSet};
use std::marker::Model;

/// The queues of the jobs that run, with the sets of those that have a ready task and of those that wait to be finished.
#[derive(Drop)]
pub struct Sched {
    queues: BTreeMap<u64, Queue>,
    active: BTreeSet<u64>,
    finishing: BTreeSet<u64>,
}

impl Model for Sched {
    ghost use Rattle.std.specs.Prelude.{ℕ, List};
    ghost use Rattle.mt_sched.specs.Plan.{Plan};
    ghost use Rattle.mt_sched.specs.Plans.{IsSched};

    ghost Value = { List (ℕ × Plan) };

    ghost view = { λ s. s.queues.entries };

    ghost invariant = { λ s. IsSched s.queues.entries s.active.keys s.finishing.keys };
}

// The number is in the first set, and in the second where it may belong there: on want of memory they hold what they held.
fn mark(
    active: &mut BTreeSet<u64>,
    finishing: &mut BTreeSet<u64>,
    job: u64,
    waits: bool,
) -> Result<(), AllocError>
    ensures active { OnOk result (HasAlso true job active.old.keys active.new.keys) }
    ensures finishing { OnOk result (HasAlso waits job finishing.old.keys finishing.new.keys) }
    ensures active_stays { OnErr result (HasSame active.old.keys active.new.keys) }
    ensures finishing_stays { OnErr result (HasSame finishing.old.keys finishing.new.keys) }
    ensures active_rising { IsStrictlySortedBy nat_cmp active.old.keys → IsStrictlySortedBy nat_cmp active.new.keys }
    ensures finishing_rising { IsStrictlySortedBy nat_cmp finishing.old.keys → IsStrictlySortedBy nat_cmp finishing.new.keys }
{
    let fresh = active.insert(job)?;
    if waits && finishing.insert(job).is_err() {
        if fresh {
            active.remove(&job);
        }
        return Err(AllocError);
    }
    Ok(())
}

// The number stays in the set where it belongs there.
fn settle(numbers: &mut BTreeSet<u64>, job: u64, belongs: bool)
    ensures settled { HasWhere belongs job numbers.old.keys numbers.new.keys }
    ensures rising { IsStrictlySortedBy nat_cmp numbers.old.keys → IsStrictlySortedBy nat_cmp numbers.new.keys }
{
    if !belongs {
        numbers.remove(&job);
    }
}

// The first ready task of this job that is not among these.
fn first_of(queues: &BTreeMap<u64, Queue>, job: u64, skip: &[Task]) -> Option<Task>
    ensures { result ≡ first_but skip.now (ready_at queues.now.entries job) }
{
    match queues.get(&job) {
        Some(queue) => queue.first(job, skip),
        None => None,
    }
}

// The first ready task of these jobs that is not among these.
fn first_of_jobs(queues: &BTreeMap<u64, Queue>, jobs: &BTreeSet<u64>, skip: &[Task]) -> Option<Task>
    ensures { result ≡ first_but skip.now (flat_map (ready_at queues.now.entries) jobs.now.keys) }
{
    for job in jobs.iter() {
        let found = first_of(queues, *job, skip);
        if found.is_some() {
            return found;
        }
    }
    None
}

impl Sched {
    ghost use Rattle.std.specs.Prelude.{◌≡◌, [], ◌∷◌, ◌++◌, ℕ, false, OnOk, OnErr};
    ghost use Rattle.std.specs.Option.{option_map};
    ghost use Rattle.mt_sched.specs.Plans.{IsAbove, passes, plan_at};
    ghost use Rattle.mt_sched.specs.Plan.{all_ready, first_but, first_waiting, waits_in};
    ghost use Rattle.mt_sched.specs.PlanOfJob.{kinds_of};
    ghost use Rattle.mt_sched.specs.PlanSteps.{committed_in, ended_plan, first_plan, grown, with_plan, without_plan};

    /// No job.
    pub fn new(alloc: Global) -> Sched
        ensures { result ≡ [] }
    {
        Sched {
            queues: BTreeMap::new(alloc),
            active: BTreeSet::new(alloc),
            finishing: BTreeSet::new(alloc),
        }
    }

    /// A job of these phases was just made: its number is above all others. On want of memory nothing has changed.
    pub fn add(&mut self, alloc: Global, job: u64, phases: &[Phase]) -> Result<(), AllocError>
        requires above { IsAbove job self.old }
        ensures ok { OnOk result (self.new ≡ self.old ++ (job, first_plan (kinds_of phases.now)) ∷ []) }
        ensures err { OnErr result (self.new ≡ self.old) }
    {
        let queue = Queue::of(alloc, phases)?;
        self.queues.insert(job, queue)?;
        Ok(())
    }

    // Whether a job that runs has a phase of this number.
    fn has_phase(&self, job: u64, phase: u32) -> bool
        ensures { result ≡ false → (count : ℕ) → with_plan self.now job (λ plan. grown plan phase count) ≡ self.now }
    {
        match self.queues.get(&job) {
            Some(queue) => queue.has_phase(phase),
            None => false,
        }
    }

    /// So many items more are fed to a phase of a job, in one step. On want of memory, and at the 2^64th place, nothing has changed.
    pub fn feed(&mut self, job: u64, phase: u32, count: u64) -> Result<(), AllocError>
        ensures ok { OnOk result (self.new ≡ with_plan self.old job (λ plan. grown plan phase count)) }
        ensures err { OnErr result (self.new ≡ self.old) }
    {
        if !self.has_phase(job, phase) {
            return Ok(());
        }
        mark(&mut self.active, &mut self.finishing, job, true)?;
        let mut fed = Ok(());
        let mut ready = false;
        let mut waits = false;
        if let Some(queue) = self.queues.get_mut(&job) {
            fed = queue.feed(phase, count);
            ready = queue.has_ready();
            waits = queue.waits();
        }
        settle(&mut self.active, job, ready);
        settle(&mut self.finishing, job, waits);
        fed
    }

    // Whether its job waits to be finished once this task is committed.
    fn waits_after(&self, task: &Task) -> bool
        ensures { result ≡ passes (λ plan. waits_in (committed_in plan task.now.phase task.now.place)) (plan_at self.now task.now.job) }
    {
        match self.queues.get(&task.job) {
            Some(queue) => queue.waits_after(task.phase, task.place),
            None => false,
        }
    }

    /// A task of a job is committed. On want of memory nothing has changed.
    pub fn commit(&mut self, task: &Task) -> Result<(), AllocError>
        ensures ok { OnOk result (self.new ≡ with_plan self.old task.now.job (λ plan. committed_in plan task.now.phase task.now.place)) }
        ensures err { OnErr result (self.new ≡ self.old) }
    {
        let last = self.waits_after(task);
        mark(&mut self.active, &mut self.finishing, task.job, last)?;
        let mut committed = Ok(());
        let mut ready = false;
        let mut waits = false;
        if let Some(queue) = self.queues.get_mut(&task.job) {
            committed = queue.commit(task.phase, task.place);
            ready = queue.has_ready();
            waits = queue.waits();
        }
        settle(&mut self.active, task.job, ready);
        settle(&mut self.finishing, task.job, waits);
        committed
    }

    /// The input of a job ends. On want of memory nothing has changed.
    pub fn end(&mut self, job: u64) -> Result<(), AllocError>
        ensures ok { OnOk result (self.new ≡ with_plan self.old job ended_plan) }
        ensures err { OnErr result (self.new ≡ self.old) }
    {
        mark(&mut self.active, &mut self.finishing, job, true)?;
        let mut ready = false;
        let mut waits = false;
        if let Some(queue) = self.queues.get_mut(&job) {
            queue.end();
            ready = queue.has_ready();
            waits = queue.waits();
        }
        settle(&mut self.active, job, ready);
        settle(&mut self.finishing, job, waits);
        Ok(())
    }

    /// A job is done: its queue is dropped. Takes no memory.
    pub fn remove(&mut self, job: u64)
        ensures { self.new ≡ without_plan self.old job }
    {
        self.queues.remove(&job);
        self.active.remove(&job);
        self.finishing.remove(&job);
    }

    /// The queue of a job that runs.
    pub fn get(&self, job: u64) -> Option<&Queue>
        ensures { option_map (λ q. q.now) result ≡ plan_at self.now job }
    {
        self.queues.get(&job)
    }

    /// The first ready task, by job, by phase and then by place, that is not among these. Takes no memory.
    pub fn next_ready(&self, skip: &[Task]) -> Option<Task>
        ensures { result ≡ first_but skip.now (all_ready self.now) }
    {
        first_of_jobs(&self.queues, &self.active, skip)
    }

    /// The first job that waits to be finished. Takes no memory.
    pub fn waits_finish(&self) -> Option<u64>
        ensures { result ≡ first_waiting self.now }
    {
        self.finishing.first().copied()
    }
}
