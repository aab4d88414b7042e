//! How much there is of a job.
ghost use Rattle.std.specs.Prelude.{◌≡◌, ℕ, ◌+◌, List, IfOk, length};
ghost use Rattle.mt_feeds.specs.FedJob.{AreFeeds};
ghost use Rattle.mt_model.specs.Finished.{outputs_of};
ghost use Rattle.mt_jobtext.specs.JobTexts as words;
ghost use Rattle.mt_jobtext.specs.JobTexts.{errors_of, names_failed};
ghost use Rattle.mt_jobtext.specs.Pieces as pieces;
ghost use Rattle.mt_jobtext.specs.Pieces.{HasStats, NeedsStats};

use crate::found::{failed_path, outputs_in};
use mt_feeds::FedJob;
use mt_types::{Job, LiveText, Outcome, TraceEntry};
use std::alloc::AllocError;

/// The numbers of a job's status.
#[derive(Clone, Copy)]
pub(crate) struct Stats {
    /// Missing lines and failed tasks.
    pub(crate) errors: u64,
    /// Inputs, without the missing lines.
    pub(crate) inputs: u64,
    /// Outputs.
    pub(crate) outputs: u64,
    /// Committed tasks, failed ones too.
    pub(crate) tasks: u64,
}

/// How many lines a text of a job has; of the status, 1. It takes no memory: the error says that the number is not below 2 ^ 64,
/// which no memory holds.
pub fn line_count<B>(kept: &FedJob<B>, text: LiveText) -> Result<u64, AllocError>
    requires { AreFeeds kept.now.job kept.now.feeds.items }
    ensures { IfOk result (λ n. (login : List ℕ) → n ≡ words.line_count login kept.now.job text) }
{
    let job = &kept.job;
    match text {
        LiveText::In => Ok(job.inputs.len() as u64),
        LiveText::Out => output_count(job),
        LiveText::Fail => name_count(kept),
        LiveText::Err => error_count(job),
        LiveText::Tasks => Ok(job.trace.len() as u64),
        LiveText::Status => Ok(1),
    }
}

/// The numbers of a job's status, where a text tells them. No other text takes the time to count them.
pub(crate) fn needed_stats<B>(job: &Job<B>, text: LiveText) -> Result<Stats, AllocError>
    ensures { IfOk result (λ stats. NeedsStats job.now text stats) }
{
    match text {
        LiveText::Status => stats_of(job),
        _ => Ok(Stats {
            errors: 0,
            inputs: 0,
            outputs: 0,
            tasks: 0,
        }),
    }
}

// The numbers of a job's status.
fn stats_of<B>(job: &Job<B>) -> Result<Stats, AllocError>
    ensures { IfOk result (λ stats. HasStats job.now stats) }
{
    Ok(Stats {
        errors: error_count(job)?,
        inputs: job.inputs.len() as u64,
        outputs: output_count(job)?,
        tasks: job.trace.len() as u64,
    })
}

// The lines of what went wrong.
fn error_count<B>(job: &Job<B>) -> Result<u64, AllocError>
    ensures { IfOk result (λ n. (login : List ℕ) → n ≡ length (errors_of login job.now)) }
{
    let trace = job.trace.as_slice();
    let mut failed = 0;
    for entry in trace {
        if is_bad(entry) {
            failed += 1;
        }
    }
    let count = sum(job.missing.len() as u64, failed)?;
    Ok(count)
}

// The lines of names of what went wrong.
fn name_count<B>(kept: &FedJob<B>) -> Result<u64, AllocError>
    requires { AreFeeds kept.now.job kept.now.feeds.items }
    ensures { IfOk result (λ n. (login : List ℕ) → n ≡ length (names_failed login kept.now.job)) }
{
    let trace = kept.job.trace.as_slice();
    let mut names = 0;
    for entry in trace {
        if failed_path(kept, entry).is_some() {
            names += 1;
        }
    }
    let count = sum(kept.job.missing.len() as u64, names)?;
    Ok(count)
}

// The outputs of a job.
fn output_count<B>(job: &Job<B>) -> Result<u64, AllocError>
    ensures { IfOk result (λ n. n ≡ length (outputs_of job.now)) }
{
    let phases = job.document.phases.len();
    if phases == 0 {
        return Ok(job.inputs.len() as u64);
    }
    let last = phases - 1;
    let trace = job.trace.as_slice();
    let mut outputs = 0;
    for entry in trace {
        outputs = sum(outputs, outputs_in(entry, last).len() as u64)?;
    }
    Ok(outputs)
}

/// A sum that fits.
pub(crate) fn sum(a: u64, b: u64) -> Result<u64, AllocError>
    ensures { IfOk result (λ n. n ≡ a + b) }
{
    a.checked_add(b).ok_or(AllocError)
}

// Whether a committed task failed.
fn is_bad<B>(entry: &TraceEntry<B>) -> bool
    ensures { result ≡ pieces.is_bad entry.now }
{
    match entry.outcome {
        Outcome::Good(_) => false,
        Outcome::Bad { .. } => true,
    }
}
