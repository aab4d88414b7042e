//! Jobs taken from a list, as the base of a log lists them: each with its inputs and missing lines, then the end of its input, then its
//! trace, entry by entry, then how it was done.
ghost use Rattle.std.specs.Prelude.{◌≡◌, ◌≤◌, ◌++◌, ◌∷◌, [], ◌+◌, ◌&&◌, not, nat_lt, length, option_copied, OnOk};
ghost use Rattle.std.specs.BTreeSet.{insert_key};
ghost use Rattle.std.specs.Ordering.{nat_cmp};
ghost use Rattle.mt_types.specs.declared.limits.TheConstants.{MOST_COMMANDS};
ghost use Rattle.mt_sched.specs.Plans.{IsAbove};
ghost use Rattle.mt_sched.specs.PlanOfJob.{kinds_of};
ghost use Rattle.mt_sched.specs.PlanSteps.{first_plan, grown};
ghost use Rattle.mt_jobs.specs.Listed.{is_above_last, is_first_number, is_next_position};

use crate::commit::enter;
use crate::jobs::{Jobs, find};
use crate::making::push_job;
use crate::refusals::are_too_many;
use mt_feeds::FedJob;
use mt_sched::Sched;
use mt_types::{Duplicate, Job, NUMBERS_A_COMMAND, Task, TraceEntry};
use std::alloc::{AllocError, Global};
use std::collections::BTreeSet;

// Whether a number is the first one of one of so many commands.
fn is_first_number(count: u64, number: u64) -> bool
    requires { count ≤ MOST_COMMANDS }
    ensures { result ≡ is_first_number count number }
{
    number % NUMBERS_A_COMMAND == 0 && number < count * NUMBERS_A_COMMAND
}

// Whether an entry may be at this position, behind these, after so many commands.
fn is_next_position<B>(trace: &[TraceEntry<B>], count: u64, position: u64) -> bool
    ensures { result ≡ is_next_position count trace.now position }
{
    if position >= count {
        return false;
    }
    match trace.last() {
        Some(last) => last.position < position,
        None => true,
    }
}

// Adds a job behind the others, with a place in its queue for each input of a map phase.
fn push_listed<B: Drop>(
    alloc: Global,
    jobs: &mut Vec<FedJob<B>>,
    sched: &mut Sched,
    running: &mut BTreeSet<u64>,
    kept: FedJob<B>,
) -> Result<(), AllocError>
    requires above { IsAbove kept.job.number sched.old }
    ensures jobs { OnOk result (jobs.new.items ≡ jobs.old.items ++ kept ∷ []) }
    ensures sched { OnOk result (sched.new ≡ sched.old ++ (kept.job.number, grown (first_plan (kinds_of kept.job.document.phases)) 0 (length kept.job.inputs)) ∷ []) }
    ensures running { OnOk result (running.new.keys ≡ insert_key nat_cmp running.old.keys kept.job.number) }
{
    let number = kept.job.number;
    let count = kept.job.inputs.len();
    push_job(alloc, jobs, sched, running, kept)?;
    sched.feed(number, 0, count as u64)
}

impl<B> Jobs<B> {
    ghost use Rattle.std.specs.Prelude.{◌≡◌, ◌≤◌, ◌+◌, ◌&&◌, not, nat_lt, length, option_copied};
    ghost use Rattle.mt_jobs.specs.Listed.{is_above_last, is_first_number, last_of};

    /// The last job, at no cost.
    pub fn last(&self) -> Option<&Job<B>>
        ensures { option_copied result ≡ last_of self.now }
    {
        match self.jobs.last() {
            Some(kept) => Some(&kept.job),
            None => None,
        }
    }

    // Whether a number is above that of the last job.
    fn is_above_last(&self, number: u64) -> bool
        ensures { result ≡ is_above_last self.now number }
    {
        match self.last() {
            Some(job) => job.number < number,
            None => true,
        }
    }

    // Whether a lawful list may go on with this job.
    fn may_take(&self, count: u64, job: &Job<B>) -> bool
        requires { count ≤ MOST_COMMANDS }
        ensures { result ≡ (is_first_number count job.now.number && is_above_last self.now job.now.number && not (nat_lt 1000000 (length job.now.inputs + length job.now.missing + 0))) }
    {
        is_first_number(count, job.number)
            && self.is_above_last(job.number)
            && !are_too_many(job.inputs.len(), job.missing.len(), 0)
    }
}

impl<B: Drop> Jobs<B> {
    ghost use Rattle.std.specs.Prelude.{◌≡◌, ◌≤◌, ◌++◌, ◌∷◌, [], ℕ, All, None, OnErr, OnOk, IfSome, IsSomeAnd, true};
    ghost use Rattle.mt_types.specs.WellMade.{IsDocument};
    ghost use Rattle.mt_model.specs.JobSteps.{commit_refusal, done_at, job_refusal, with_entry};
    ghost use Rattle.mt_model.specs.Lawful.{LawfulJob};
    ghost use Rattle.mt_model.specs.Sound.{Sound};
    ghost use Rattle.mt_model.specs.State.{job_at, with_job};
    ghost use Rattle.mt_model.specs.Tasks.{is_running};
    ghost use Rattle.mt_jobs.specs.Listed.{IsHead, IsWellMadeEntry, LawfulList, NeverFollows, NeverGoesOn, WhenRefused, WhenTaken, last_of, with_last};

    /// Takes a job behind the others, of an account of so many commands, with its inputs and missing lines; [`Jobs::take_end`],
    /// [`Jobs::take_entry`] and [`Jobs::take_done`] then take the rest of it. False where no lawful list goes on with it: its number
    /// isn't the first of a command, of one so far, and above the others, or it has more than 1,000,000 inputs and missing lines;
    /// nothing has changed then. A look-up and a step for each input. On an error, which is want of memory, the jobs may be any.
    pub fn take(&mut self, alloc: Global, count: u64, job: Job<B>) -> Result<bool, AllocError>
        requires room { count ≤ MOST_COMMANDS }
        requires head { IsHead job }
        requires lawful { LawfulList count self.old }
        ensures taken { WhenTaken result (self.new ≡ self.old ++ job ∷ []) }
        ensures refused { WhenRefused result ((self.new ≡ self.old) × NeverFollows count self.old job) }
        ensures lawful { OnOk result (LawfulList count self.new) }
    {
        if !self.may_take(count, &job) {
            return Ok(false);
        }
        let kept = FedJob::of(alloc, job)?;
        match push_listed(
            alloc,
            &mut self.jobs,
            &mut self.sched,
            &mut self.running,
            kept,
        ) {
            Ok(()) => Ok(true),
            Err(error) => {
                *self = Jobs::new(alloc);
                Err(error)
            }
        }
    }

    // A task of the job of a number is committed with this entry.
    fn enter_at(&mut self, alloc: Global, job: u64, entry: TraceEntry<B>) -> Result<(), AllocError>
        requires allowed { job_refusal (job_at self.old job) (commit_refusal entry.phase entry.place) ≡ None }
        requires sound { All Sound self.old }
        requires documents { All (λ j. IsDocument j.document) self.old }
        ensures { OnOk result (self.new ≡ with_job self.old job (with_entry entry)) }
    {
        let Some(at) = find(&self.jobs, job) else {
            return Ok(());
        };
        match enter(alloc, &mut self.jobs[at], &mut self.sched, entry) {
            Ok(()) => Ok(()),
            Err(error) => {
                *self = Jobs::new(alloc);
                Err(error)
            }
        }
    }

    /// Takes the next entry of the trace of the last job, which has to run. False where no lawful job goes on with it: its task
    /// may not run or is committed, or its position isn't of a command so far and behind that of the entry before; nothing has
    /// changed then. A few look-ups; the shares of what may then begin are laid out at the cost of what it reads. On an error, which
    /// is want of memory, the jobs may be any.
    pub fn take_entry(
        &mut self,
        alloc: Global,
        count: u64,
        entry: TraceEntry<B>,
    ) -> Result<bool, AllocError>
        requires runs { IsSomeAnd (last_of self.old) (λ j. is_running j ≡ true) }
        requires entry { IsWellMadeEntry entry }
        requires lawful { LawfulList count self.old }
        ensures taken { WhenTaken result (self.new ≡ with_last (with_entry entry) self.old) }
        ensures refused { WhenRefused result ((self.new ≡ self.old) × IfSome (last_of self.old) (λ j. NeverGoesOn count (with_entry entry j))) }
        ensures lawful { OnOk result (LawfulList count self.new) }
    {
        let Some(last) = self.last() else {
            return Ok(false);
        };
        if !is_next_position(last.trace.as_slice(), count, entry.position) {
            return Ok(false);
        }
        let job = last.number;
        let task = Task {
            job,
            phase: entry.phase,
            place: entry.place,
        };
        if self.may_commit(&task).is_err() {
            return Ok(false);
        }
        self.enter_at(alloc, job, entry)?;
        Ok(true)
    }

    /// Takes how the last job, which has to run, was done: at this moment, and cancelled or not. False where no lawful job is done
    /// so: it isn't cancelled, and its input hasn't ended or a task isn't committed; nothing has changed then. A few look-ups. On an
    /// error, which is want of memory, nothing has changed. A job that is cancelled is done: a list that says otherwise lists no
    /// lawful job, and has nothing to be taken here.
    pub fn take_done(&mut self, moment: u64, cancelled: bool) -> Result<bool, AllocError>
        requires runs { IsSomeAnd (last_of self.old) (λ j. is_running j ≡ true) }
        ensures taken { WhenTaken result (self.new ≡ with_last (done_at moment cancelled) self.old) }
        ensures refused { WhenRefused result ((self.new ≡ self.old) × IfSome (last_of self.old) (λ j. (count : ℕ) → LawfulJob count (done_at moment cancelled j) → ⊥)) }
        ensures lawful { OnOk result ((count : ℕ) → LawfulList count self.old → LawfulList count self.new) }
        ensures err { OnErr result (self.new ≡ self.old) }
    {
        let _ = &self.jobs;
        let Some(last) = self.last() else {
            return Ok(false);
        };
        let job = last.number;
        if self.may_close(job, cancelled).is_err() {
            return Ok(false);
        }
        self.end_as(job, cancelled, moment)?;
        Ok(true)
    }
}

impl<B: Duplicate> Jobs<B> {
    ghost use Rattle.std.specs.Prelude.{◌≡◌, ℕ, All, None, OnOk, IsSomeAnd};
    ghost use Rattle.mt_types.specs.WellMade.{IsDocument};
    ghost use Rattle.mt_model.specs.JobSteps.{input_refusal, with_end};
    ghost use Rattle.mt_jobs.specs.Listed.{LawfulList, last_of, with_last};

    /// Takes that the input of the last job has ended, which has to be open. The shares of a reduce phase that may begin by it are laid
    /// out, at the cost of what it reads. On an error, which is want of memory, the jobs may be any.
    pub fn take_end(&mut self, alloc: Global) -> Result<(), AllocError>
        requires open { IsSomeAnd (last_of self.old) (λ j. input_refusal j ≡ None) }
        requires documents { All (λ j. IsDocument j.document) self.old }
        ensures ended { OnOk result (self.new ≡ with_last with_end self.old) }
        ensures lawful { OnOk result ((count : ℕ) → LawfulList count self.old → LawfulList count self.new) }
    {
        let _ = &self.jobs;
        let Some(last) = self.last() else {
            return Ok(());
        };
        let job = last.number;
        self.end_input(alloc, job)
    }
}
