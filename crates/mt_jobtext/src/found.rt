//! What a task of a job read.
ghost use Rattle.std.specs.Prelude.{◌≡◌, option_copied, option_map};
ghost use Rattle.std.specs.List.{slice_get};
ghost use Rattle.mt_model.specs.Feed as model;
ghost use Rattle.mt_feeds.specs.FedJob.{AreFeeds};
ghost use Rattle.mt_jobtext.specs.JobTexts as words;
ghost use Rattle.mt_jobtext.specs.Pieces as pieces;

use mt_feeds::FedJob;
use mt_path::Path;
use mt_types::{Item, Job, Outcome, PhaseKind, TraceEntry};

/// The name of the object that a failed map task read, by look-ups.
pub(crate) fn failed_path<'a, B>(kept: &'a FedJob<B>, entry: &TraceEntry<B>) -> Option<&'a Path>
    requires { AreFeeds kept.now.job kept.now.feeds.items }
    ensures { option_copied result ≡ pieces.failed_path kept.now.job entry.now }
{
    match &entry.outcome {
        Outcome::Good(_) => None,
        Outcome::Bad { .. } => path_of_task(kept, entry.phase, entry.place),
    }
}

/// The name of the object that the task at a place of a phase reads, if it is a map task: by look-ups.
pub(crate) fn path_of_task<B>(kept: &FedJob<B>, phase: u32, place: u64) -> Option<&Path>
    requires { AreFeeds kept.now.job kept.now.feeds.items }
    ensures { option_copied result ≡ pieces.path_of_task kept.now.job phase place }
{
    match kind_of(&kept.job, phase)? {
        PhaseKind::Map => Some(&kept.item(phase, place)?.name),
        PhaseKind::Reduce { .. } => None,
    }
}

/// The number of the reducer that is the task at a place of a phase, if it is a reduce task.
pub(crate) fn reducer_of_task<B>(job: &Job<B>, phase: u32, place: u64) -> Option<u64>
    ensures { result ≡ words.reducer_of_task job.now phase place }
{
    match kind_of(job, phase)? {
        PhaseKind::Map => None,
        PhaseKind::Reduce { .. } => Some(place),
    }
}

/// What a committed task made; of one that failed, nothing.
pub(crate) fn items_of<B>(outcome: &Outcome<B>) -> &[Item<B>]
    ensures { result.now ≡ model.items_of outcome.now }
{
    match outcome {
        Outcome::Good(items) => items.as_slice(),
        Outcome::Bad { .. } => &[],
    }
}

// How a phase of a job cuts its feed.
fn kind_of<B>(job: &Job<B>, phase: u32) -> Option<PhaseKind>
    ensures { result ≡ option_map (λ p. p.kind) (slice_get job.now.document.phases phase) }
{
    match job.document.phases.as_slice().get(phase as usize) {
        Some(found) => Some(found.kind),
        None => None,
    }
}

/// What a committed task made, if it is one of this phase.
pub(crate) fn outputs_in<B>(entry: &TraceEntry<B>, phase: usize) -> &[Item<B>]
    ensures { result.now ≡ pieces.outputs_in phase entry.now }
{
    if entry.phase as usize == phase {
        items_of(&entry.outcome)
    } else {
        &[]
    }
}
