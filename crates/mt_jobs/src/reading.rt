//! What a task reads, and what may run.
ghost use Rattle.std.specs.Prelude.{◌≡◌, true, IfOk};
ghost use Rattle.std.specs.List.{sum_by};
ghost use Rattle.mt_model.specs.Tasks.{is_ready};
ghost use Rattle.mt_feeds.specs.FedJob.{IsKept};
ghost use Rattle.mt_feeds.specs.Reading.{task_items};

use crate::jobs::Jobs;
use mt_feeds::FedJob;
use mt_types::{Body, Item, Task};
use std::alloc::AllocError;

// How many bytes a ready task of a job reads; a sum that isn't below 2^64 counts as want of memory.
fn len_of(kept: &FedJob<Body>, phase: u32, place: u64) -> Result<u64, AllocError>
    requires kept { IsKept kept.now }
    requires ready { is_ready kept.now.job phase place ≡ true }
    ensures { IfOk result (λ n. n ≡ sum_by (λ i. i.body.len) (task_items phase place kept.now.job)) }
{
    let mut len: u64 = 0;
    for k in 0..kept.read_count(phase, place) {
        let Some(item) = kept.read(phase, place, k) else {
            unreachable!()
        };
        let Some(more) = len.checked_add(item.body.len) else {
            return Err(AllocError);
        };
        len = more;
    }
    Ok(len)
}

impl<B> Jobs<B> {
    ghost use Rattle.std.specs.Prelude.{◌≡◌, true, false, IfSome, length, option_copied};
    ghost use Rattle.std.specs.List.{find, flat_map};
    ghost use Rattle.std.specs.Option.{option_and_then, option_map, option_map_or};
    ghost use Rattle.mt_model.specs.State.{job_at};
    ghost use Rattle.mt_model.specs.Tasks.{is_ready, ready, waits_finish};
    ghost use Rattle.mt_sched.specs.Plan.{first_but};
    ghost use Rattle.mt_feeds.specs.Reading.{item_of, read_of, task_items};

    /// Whether a task may run now and is not committed, by look-ups.
    pub fn is_ready(&self, task: &Task) -> bool
        ensures { result ≡ option_map_or (λ j. is_ready j task.now.phase task.now.place) (job_at self.now task.now.job) false }
    {
        match self.sched.get(task.job) {
            Some(queue) => queue.is_ready(task.phase, task.place),
            None => false,
        }
    }

    /// The first ready task, by job, by phase and then by place, that is not among these. It visits at most one job and one place
    /// more than are skipped. Takes no memory.
    pub fn next_ready(&self, skip: &[Task]) -> Option<Task>
        ensures { result ≡ first_but skip.now (flat_map ready self.now) }
    {
        self.sched.next_ready(skip)
    }

    /// The first job that waits to be finished, by a look-up.
    pub fn waits_finish(&self) -> Option<u64>
        ensures { result ≡ option_map (λ j. j.number) (find waits_finish self.now) }
    {
        self.sched.waits_finish()
    }

    /// The item at a place of what a phase of a job reads, by look-ups; none where the job or the phase is not there.
    pub fn item(&self, task: &Task) -> Option<&Item<B>>
        ensures { option_copied result ≡ option_and_then (item_of task.now.phase task.now.place) (job_at self.now task.now.job) }
    {
        match self.kept(task.job) {
            Some(kept) => kept.item(task.phase, task.place),
            None => None,
        }
    }

    /// One of the items that a ready task reads, counted from 0, by look-ups; none from their number on.
    pub fn read(&self, task: &Task, k: usize) -> Option<&Item<B>>
        requires { IfSome (job_at self.now task.now.job) (λ j. is_ready j task.now.phase task.now.place ≡ true) }
        ensures { option_copied result ≡ option_and_then (read_of task.now.phase task.now.place k) (job_at self.now task.now.job) }
    {
        match self.kept(task.job) {
            Some(kept) => kept.read(task.phase, task.place, k),
            None => None,
        }
    }

    /// The number of items that a ready task reads, by look-ups.
    pub fn read_count(&self, task: &Task) -> usize
        requires { IfSome (job_at self.now task.now.job) (λ j. is_ready j task.now.phase task.now.place ≡ true) }
        ensures { result ≡ option_map_or (λ j. length (task_items task.now.phase task.now.place j)) (job_at self.now task.now.job) 0 }
    {
        match self.kept(task.job) {
            Some(kept) => kept.read_count(task.phase, task.place),
            None => 0,
        }
    }
}

impl Jobs<Body> {
    ghost use Rattle.std.specs.Prelude.{◌≡◌, true, IfOk, IfSome};
    ghost use Rattle.std.specs.List.{sum_by};
    ghost use Rattle.std.specs.Option.{option_map_or};
    ghost use Rattle.mt_model.specs.State.{job_at};
    ghost use Rattle.mt_model.specs.Tasks.{is_ready};
    ghost use Rattle.mt_feeds.specs.Reading.{task_items};

    /// How many bytes a ready task reads, at the cost of a look-up an item. It takes no memory: the error is a sum that isn't below 2^64.
    pub fn input_len(&self, task: &Task) -> Result<u64, AllocError>
        requires { IfSome (job_at self.now task.now.job) (λ j. is_ready j task.now.phase task.now.place ≡ true) }
        ensures { IfOk result (λ n. n ≡ option_map_or (λ j. sum_by (λ i. i.body.len) (task_items task.now.phase task.now.place j)) (job_at self.now task.now.job) 0) }
    {
        match self.kept(task.job) {
            Some(kept) => len_of(kept, task.phase, task.place),
            None => Ok(0),
        }
    }
}
