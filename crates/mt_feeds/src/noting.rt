//! Where the outputs of a trace stand, noted from its front.
ghost use Rattle.std.specs.Prelude.{◌≡◌, IfOk, OnOk, length};
ghost use Rattle.mt_types.specs.declared.job.Job.{Job};
ghost use Rattle.mt_model.specs.JobSteps.{with_entry};
ghost use Rattle.mt_feeds.specs.FedJob.{AreFeeds};

use crate::kept::{At, FedJob, count_of, empty_lists, note};
use mt_types::{Job, TraceEntry};
use std::alloc::{AllocError, Global};

// Notes the outputs of an entry at its place in the trace, where the job has its phase.
fn note_entry<B>(
    feeds: &mut Vec<Vec<At>>,
    place: usize,
    entry: &TraceEntry<B>,
) -> Result<(), AllocError>
    ensures { OnOk result ((job : Job B) → length job.trace ≡ place → AreFeeds job feeds.old.items → AreFeeds (with_entry entry.now job) feeds.new.items) }
{
    let phase = entry.phase as usize;
    if phase < feeds.len() {
        note(&mut feeds[phase], place, count_of(&entry.outcome))?;
    }
    Ok(())
}

// Where the outputs of the tasks of each phase stand.
fn feeds_of<B>(alloc: Global, job: &Job<B>) -> Result<Vec<Vec<At>>, AllocError>
    ensures { IfOk result (λ feeds. AreFeeds job.now feeds.items) }
{
    let trace = job.trace.as_slice();
    let mut feeds = empty_lists(alloc, job.document.phases.len())?;
    for place in 0..trace.len() {
        note_entry(&mut feeds, place, &trace[place])?;
    }
    Ok(feeds)
}

impl<B: Drop> FedJob<B> {
    ghost use Rattle.std.specs.Prelude.{◌≡◌, IfOk};
    ghost use Rattle.mt_feeds.specs.FedJob.{AreFeeds};

    /// A job of any trace, with where the outputs of its tasks stand, and without shares: as a text of it needs it.
    pub fn with_feeds(alloc: Global, job: Job<B>) -> Result<FedJob<B>, AllocError>
        ensures job { IfOk result (λ k. k.job ≡ job) }
        ensures feeds { IfOk result (λ k. AreFeeds k.job k.feeds.items) }
    {
        let feeds = feeds_of(alloc, &job)?;
        Ok(FedJob {
            job,
            feeds,
            shares: Vec::new(alloc),
        })
    }
}
