//! Whether commands on jobs are allowed: by look-ups, without memory.
ghost use Rattle.std.specs.Prelude.{◌≡◌, ◌+◌, nat_lt};
ghost use Rattle.mt_model.specs.JobSteps.{add_inputs_refusal, input_refusal};
ghost use Rattle.mt_tree.specs.Answer.{answer};
ghost use Rattle.mt_jobs.specs.Queues.{end_refusal, task_refusal};

use crate::jobs::Jobs;
use mt_sched::Queue;
use mt_types::{InputLine, Job, Refusal, Task};

/// A job has at most so many inputs and missing lines together.
const MOST_INPUTS: usize = 1_000_000;

// Whether the input of a job may grow and end.
fn input_test<B>(job: &Job<B>) -> Result<(), Refusal>
    ensures { result ≡ answer (input_refusal job.now) }
{
    if job.ended || job.done.is_some() {
        Err(Refusal::JobState)
    } else {
        Ok(())
    }
}

// Whether so many of each together are too many.
pub(crate) fn are_too_many(inputs: usize, missing: usize, lines: usize) -> bool
    ensures { result ≡ nat_lt 1000000 (inputs + missing + lines) }
{
    if inputs > MOST_INPUTS || missing > MOST_INPUTS || lines > MOST_INPUTS {
        return true;
    }
    inputs + missing + lines > MOST_INPUTS
}

// Whether a job takes more lines.
fn lines_test<B>(job: &Job<B>, lines: &[InputLine]) -> Result<(), Refusal>
    ensures { result ≡ answer (add_inputs_refusal lines.now job.now) }
{
    input_test(job)?;
    if are_too_many(job.inputs.len(), job.missing.len(), lines.len()) {
        return Err(Refusal::TooManyInputs);
    }
    Ok(())
}

// Whether a task is committed.
fn task_test(queue: &Queue, phase: u32, place: u64) -> Result<(), Refusal>
    ensures { result ≡ answer (task_refusal phase place queue.now) }
{
    if !queue.is_task(phase, place) {
        return Err(Refusal::NotATask);
    }
    if queue.is_committed(phase, place) {
        return Err(Refusal::AlreadyCommitted);
    }
    Ok(())
}

// Whether a job that runs is closed.
fn end_test(queue: &Queue, cancelled: bool) -> Result<(), Refusal>
    ensures { result ≡ answer (end_refusal cancelled queue.now) }
{
    if !cancelled && !queue.waits() {
        return Err(Refusal::NotComplete);
    }
    Ok(())
}

impl<B> Jobs<B> {
    ghost use Rattle.std.specs.Prelude.{◌≡◌};
    ghost use Rattle.mt_model.specs.JobSteps.{add_inputs_refusal, close_refusal, commit_refusal, finish_refusal, input_refusal, job_refusal, running_refusal};
    ghost use Rattle.mt_model.specs.State.{job_at};
    ghost use Rattle.mt_tree.specs.Answer.{answer};
    ghost use Rattle.mt_jobs.specs.Queues.{plan_now, queue_of};

    // The queue of a job that runs, or why there is none.
    pub(crate) fn queue(&self, job: u64) -> Result<&Queue, Refusal>
        ensures { plan_now result ≡ queue_of (job_at self.now job) }
    {
        match self.sched.get(job) {
            Some(queue) => Ok(queue),
            None => {
                if self.get(job).is_some() {
                    Err(Refusal::JobState)
                } else {
                    Err(Refusal::JobNotFound)
                }
            }
        }
    }

    /// Whether lines may be posted to a job: `JobNotFound`, `JobState` where it is done or its input has ended, `TooManyInputs`
    /// where inputs and missing lines would be more than 1,000,000.
    pub fn may_add_inputs(&self, job: u64, lines: &[InputLine]) -> Result<(), Refusal>
        ensures { result ≡ answer (job_refusal (job_at self.now job) (add_inputs_refusal lines.now)) }
    {
        match self.get(job) {
            Some(job) => lines_test(job, lines),
            None => Err(Refusal::JobNotFound),
        }
    }

    /// Whether the input of a job may end: `JobNotFound`, `JobState` where it is done or its input has ended.
    pub fn may_end_input(&self, job: u64) -> Result<(), Refusal>
        ensures { result ≡ answer (job_refusal (job_at self.now job) input_refusal) }
    {
        match self.get(job) {
            Some(job) => input_test(job),
            None => Err(Refusal::JobNotFound),
        }
    }

    /// Whether a task may be committed: `JobNotFound`, `JobState` where the job is done, `NotATask` where it may not run,
    /// `AlreadyCommitted`.
    pub fn may_commit(&self, task: &Task) -> Result<(), Refusal>
        ensures { result ≡ answer (job_refusal (job_at self.now task.now.job) (commit_refusal task.now.phase task.now.place)) }
    {
        let queue = self.queue(task.job)?;
        task_test(queue, task.phase, task.place)
    }

    /// Whether a job may be finished: `JobNotFound`, `JobState` where it is done, `NotComplete` where it does not wait for it.
    pub fn may_finish(&self, job: u64) -> Result<(), Refusal>
        ensures { result ≡ answer (job_refusal (job_at self.now job) finish_refusal) }
    {
        let queue = self.queue(job)?;
        end_test(queue, false)
    }

    /// Whether a job may be cancelled: `JobNotFound`, `JobState` where it is done.
    pub fn may_cancel(&self, job: u64) -> Result<(), Refusal>
        ensures { result ≡ answer (job_refusal (job_at self.now job) running_refusal) }
    {
        let _queue = self.queue(job)?;
        Ok(())
    }

    /// Whether a job may be closed: `JobNotFound`, `JobState` where it is done, `NotComplete` where it neither waits to be finished
    /// nor is cancelled.
    pub fn may_close(&self, job: u64, cancelled: bool) -> Result<(), Refusal>
        ensures { result ≡ answer (job_refusal (job_at self.now job) (close_refusal cancelled)) }
    {
        let queue = self.queue(job)?;
        end_test(queue, cancelled)
    }
}
