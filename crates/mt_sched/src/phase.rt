//! The places of a phase, and those of them that are not committed.
ghost use Rattle.std.specs.Prelude.{◌≡◌, ◌-◌, ◌<◌, ◌≤◌, ℕ, All, OnOk, not};
ghost use Rattle.std.specs.List.{find, range_with_len};
ghost use Rattle.std.specs.Option.{option_map};
ghost use Rattle.std.specs.List.Sorted.{IsStrictlySortedBy};
ghost use Rattle.std.specs.Ordering.{nat_cmp};
ghost use Rattle.mt_sched.specs.Plan.{has_task, is_same_task, open_places, task_at};

use mt_types::{PhaseKind, Task};
use std::alloc::{AllocError, Global};
use std::collections::BTreeSet;
use std::marker::Model;
use std::slice;

/// A phase of a job that runs: the number of its places, the place from which on none is committed, and those before it that aren't, as others
/// passed them.
#[derive(Drop)]
pub struct PhaseQueue {
    phase: u32,
    kind: PhaseKind,
    places: u64,
    rest: u64,
    passed: BTreeSet<u64>,
}

impl Model for PhaseQueue {
    ghost use Rattle.mt_sched.specs.Plan.{PhasePlan, ArePlacesKept, open_places};

    ghost Value = { PhasePlan };

    ghost view = { λ q. record { phase = q.phase; kind = q.kind; places = q.places; todo = open_places q.passed.keys q.rest q.places } };

    ghost invariant = { λ q. ArePlacesKept q.passed.keys q.rest q.places };
}

// Whether they are the same task.
fn is_same(a: &Task, b: &Task) -> bool
    ensures { result ≡ is_same_task a.now b.now }
{
    a.job == b.job && (a.phase == b.phase && a.place == b.place)
}

// Whether the task is among these.
#[tactic(auto, using(crate::proofs::Skips::same_on, crate::proofs::Skips::same_found, crate::proofs::Skips::same_none))]
fn has_task(skip: &[Task], task: &Task) -> bool
    ensures { result ≡ has_task skip.now task.now }
{
    for other in skip {
        let same = is_same(task, other);
        if same {
            return true;
        }
    }
    false
}

// The first of these places whose task is not among these.
fn first_passed(passed: &BTreeSet<u64>, job: u64, phase: u32, skip: &[Task]) -> Option<u64>
    ensures { result ≡ find (λ k. not (has_task skip.now (task_at job phase k))) passed.now.keys }
{
    for place in passed.iter() {
        let task = Task {
            job,
            phase,
            place: *place,
        };
        if !has_task(skip, &task) {
            return Some(*place);
        }
    }
    None
}

// The first place from one on whose task is not among these.
fn first_of_rest(rest: u64, places: u64, job: u64, phase: u32, skip: &[Task]) -> Option<u64>
    ensures { result ≡ find (λ k. not (has_task skip.now (task_at job phase k))) (range_with_len rest (places - rest)) }
{
    for place in rest..places {
        let task = Task { job, phase, place };
        if !has_task(skip, &task) {
            return Some(place);
        }
    }
    None
}

// Passes the places up to one: they are not committed, and stand before those of which none is. On want of memory some of them are passed.
fn pass(passed: &mut BTreeSet<u64>, rest: &mut u64, place: u64) -> Result<(), AllocError>
    requires rest { rest.old ≤ place }
    requires rising { IsStrictlySortedBy nat_cmp passed.old.keys }
    requires below { All (λ k. k < rest.old) passed.old.keys }
    ensures rest { rest.new ≤ place }
    ensures rising { IsStrictlySortedBy nat_cmp passed.new.keys }
    ensures below { All (λ k. k < rest.new) passed.new.keys }
    ensures same { (places : ℕ) → place ≤ places → open_places passed.new.keys rest.new places ≡ open_places passed.old.keys rest.old places }
    ensures up_to { OnOk result (rest.new ≡ place) }
{
    'places: while *rest < place {
        passed.insert(*rest)?;
        *rest += 1;
    }
    Ok(())
}

// The task at a place, if there is one.
fn task_of(job: u64, phase: u32, place: Option<u64>) -> Option<Task>
    ensures { result ≡ option_map (task_at job phase) place }
{
    match place {
        Some(place) => Some(Task { job, phase, place }),
        None => None,
    }
}

impl PhaseQueue {
    ghost use Rattle.std.specs.Prelude.{◌≡◌, OnOk, OnErr, map};
    ghost use Rattle.mt_types.specs.declared.document.PhaseKind.TheVariants.{Map};
    ghost use Rattle.std.specs.Prelude.{not};
    ghost use Rattle.std.specs.List.{find};
    ghost use Rattle.mt_sched.specs.Plan.{first_but, has_task, is_complete_phase, is_open_place, task_at};
    ghost use Rattle.mt_sched.specs.PlanSteps.{fed, fed_to, first_phase, is_complete_after, without_place};

    /// A phase into which nothing is fed. It takes no memory yet.
    pub fn new(alloc: Global, phase: u32, kind: PhaseKind) -> PhaseQueue
        ensures { result ≡ first_phase (phase, kind) }
    {
        let places = match kind {
            PhaseKind::Map => 0,
            PhaseKind::Reduce { count } => u64::from(count),
        };
        PhaseQueue {
            phase,
            kind,
            places,
            rest: 0,
            passed: BTreeSet::new(alloc),
        }
    }

    /// The number of the phase, counted from 0.
    pub fn phase(&self) -> u32
        ensures { result ≡ self.now.phase }
    {
        self.phase
    }

    /// How it cuts its feed into tasks.
    pub fn kind(&self) -> PhaseKind
        ensures { result ≡ self.now.kind }
    {
        self.kind
    }

    /// The number of its places.
    pub fn places(&self) -> u64
        ensures { result ≡ self.now.places }
    {
        self.places
    }

    /// Whether each place is committed.
    pub fn is_complete(&self) -> bool
        ensures { result ≡ is_complete_phase self.now }
    {
        self.passed.is_empty() && self.rest == self.places
    }

    /// Whether the place is one that is not committed.
    pub fn is_open(&self, place: u64) -> bool
        ensures { result ≡ is_open_place self.now place }
    {
        if place < self.rest {
            self.passed.contains(&place)
        } else {
            place < self.places
        }
    }

    // The first place that is not committed and whose task is not among these.
    fn first_open(&self, job: u64, skip: &[Task]) -> Option<u64>
        ensures { result ≡ find (λ k. not (has_task skip.now (task_at job self.now.phase k))) self.now.todo }
    {
        match first_passed(&self.passed, job, self.phase, skip) {
            Some(place) => Some(place),
            None => first_of_rest(self.rest, self.places, job, self.phase, skip),
        }
    }

    /// The first task that is not committed and not among these. Takes no memory.
    pub fn first(&self, job: u64, skip: &[Task]) -> Option<Task>
        ensures { result ≡ first_but skip.now (map (task_at job self.now.phase) self.now.todo) }
    {
        task_of(job, self.phase, self.first_open(job, skip))
    }

    // Whether each place but this one is committed.
    fn is_complete_but(&self, place: u64) -> bool
        ensures { result ≡ is_complete_phase (without_place place self.now) }
    {
        let task = Task {
            job: 0,
            phase: self.phase,
            place,
        };
        self.first_open(0, slice::from_ref(&task)).is_none()
    }

    /// Whether each place is committed once this one of the phase of this number is. Takes no memory.
    pub fn is_complete_after(&self, phase: u32, place: u64) -> bool
        ensures { result ≡ is_complete_after phase place self.now }
    {
        if self.phase == phase {
            self.is_complete_but(place)
        } else {
            self.is_complete()
        }
    }

    // So many places more, at the end.
    fn add(&mut self, count: u64) -> Result<(), AllocError>
        ensures ok { OnOk result (self.new ≡ fed_to count Map self.old) }
        ensures err { OnErr result (self.new ≡ self.old) }
    {
        match self.places.checked_add(count) {
            Some(places) => {
                self.places = places;
                Ok(())
            }
            None => Err(AllocError),
        }
    }

    /// So many items more are fed to it, in one step. At the 2^64th place nothing has changed. Takes no memory.
    pub fn feed(&mut self, count: u64) -> Result<(), AllocError>
        ensures ok { OnOk result (self.new ≡ fed count self.old) }
        ensures err { OnErr result (self.new ≡ self.old) }
    {
        match self.kind {
            PhaseKind::Map => self.add(count),
            PhaseKind::Reduce { count: _ } => Ok(()),
        }
    }

    /// The place is committed. On want of memory nothing has changed. It takes some where it passes places that are not committed.
    pub fn commit(&mut self, place: u64) -> Result<(), AllocError>
        ensures ok { OnOk result (self.new ≡ without_place place self.old) }
        ensures err { OnErr result (self.new ≡ self.old) }
    {
        if place < self.rest {
            self.passed.remove(&place);
        } else if place < self.places {
            pass(&mut self.passed, &mut self.rest, place)?;
            self.rest = place + 1;
        }
        Ok(())
    }
}
