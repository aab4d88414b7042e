//! A job with what is kept beside it: where the outputs of its tasks stand, and the shares of its reducers.
ghost use Rattle.std.specs.Prelude.{◌≡◌, ◌++◌, [], IfOk, OnOk, length, map, option_copied, replicate};
ghost use Rattle.mt_model.specs.Feed.{items_of};
ghost use Rattle.mt_feeds.specs.FedJob.{item_at, lists_of, places_at};

use mt_types::{Item, Job, Outcome, TraceEntry};
use std::alloc::{AllocError, Global};

/// Where an output stands: the place of its task in the trace, and its own in the outcome.
#[derive(Clone, Copy, Debug, PartialEq, Eq)]
pub struct At {
    pub entry: usize,
    pub item: usize,
}

/// A job, with what is kept beside it.
#[derive(Drop)]
pub struct FedJob<B> {
    pub job: Job<B>,
    /// For each phase, where the outputs of its tasks stand.
    pub feeds: Vec<Vec<At>>,
    /// For each reduce phase that has begun, the places that each reducer reads.
    pub shares: Vec<Vec<Vec<usize>>>,
}

// The outputs of an outcome.
fn items_of<B>(outcome: &Outcome<B>) -> &[Item<B>]
    ensures { result.now ≡ items_of outcome.now }
{
    match outcome {
        Outcome::Good(items) => items.as_slice(),
        Outcome::Bad { .. } => &[],
    }
}

/// The number of outputs of an outcome.
pub fn count_of<B>(outcome: &Outcome<B>) -> usize
    ensures { result ≡ length (items_of outcome.now) }
{
    items_of(outcome).len()
}

// The item that stands there.
fn item_at<B>(trace: &[TraceEntry<B>], at: At) -> Option<&Item<B>>
    ensures { option_copied result ≡ item_at trace.now at }
{
    match trace.get(at.entry) {
        Some(entry) => items_of(&entry.outcome).get(at.item),
        None => None,
    }
}

/// Notes the outputs of an entry: so many, at its place in the trace.
pub(crate) fn note(feed: &mut Vec<At>, entry: usize, count: usize) -> Result<(), AllocError>
    ensures { OnOk result (feed.new.items ≡ feed.old.items ++ places_at entry count) }
{
    for item in 0..count {
        feed.push(At { entry, item })?;
    }
    Ok(())
}

/// So many empty lists.
pub fn empty_lists<T: Drop>(alloc: Global, count: usize) -> Result<Vec<Vec<T>>, AllocError>
    ensures { IfOk result (λ v. map (λ w. w.items) v.items ≡ replicate count []) }
{
    let mut lists = Vec::with_capacity(alloc, count)?;
    for _list in 0..count {
        lists.push(Vec::new(alloc))?;
    }
    Ok(lists)
}

// Drops all shares.
fn clear_shares(shares: &mut Vec<Vec<Vec<usize>>>)
    ensures { map lists_of shares.new.items ≡ map (λ s. []) shares.old.items }
{
    for phase in 0..shares.len() {
        shares[phase].clear();
    }
}

impl<B> FedJob<B> {
    ghost use Rattle.std.specs.Prelude.{◌≡◌, ◌<◌, false, length, map, option_copied};
    ghost use Rattle.mt_model.specs.Feed.{feed};
    ghost use Rattle.mt_model.specs.JobSteps.{done_at, with_end};
    ghost use Rattle.mt_feeds.specs.FedJob.{AreFeeds, IsKept, lists_of};
    ghost use Rattle.mt_feeds.specs.Opening.{WereShares};
    ghost use Rattle.mt_feeds.specs.Reading.{item_of};

    /// The number of items that a phase of the job reads.
    pub fn feed_len(&self, phase: u32) -> usize
        requires kept { AreFeeds self.now.job self.now.feeds.items }
        requires phase { phase < length self.now.job.document.phases }
        ensures { result ≡ length (feed self.now.job phase) }
    {
        if phase == 0 {
            return self.job.inputs.len();
        }
        self.feeds[(phase - 1) as usize].len()
    }

    /// The item at a place of what a phase of the job reads.
    pub fn item(&self, phase: u32, place: u64) -> Option<&Item<B>>
        requires { AreFeeds self.now.job self.now.feeds.items }
        ensures { option_copied result ≡ item_of phase place self.now.job }
    {
        if phase as usize >= self.job.document.phases.len() {
            return None;
        }
        if phase == 0 {
            return self.job.inputs.as_slice().get(place as usize);
        }
        match self.feeds[(phase - 1) as usize].get(place as usize) {
            Some(at) => item_at(self.job.trace.as_slice(), *at),
            None => None,
        }
    }

    /// The input of the job ends. The shares of what may then begin are not laid out yet: [`FedJob::open`] lays them out.
    pub fn end(&mut self)
        requires kept { IsKept self.old }
        requires open { self.old.job.ended ≡ false }
        ensures job { self.new.job ≡ with_end self.old.job }
        ensures feeds { AreFeeds self.new.job self.new.feeds.items }
        ensures shares { WereShares self.new.job (map lists_of self.new.shares.items) }
    {
        self.job.ended = true;
    }

    /// The job is done: its shares are dropped.
    pub fn set_done(&mut self, cancelled: bool, moment: u64)
        requires { IsKept self.old }
        ensures job { self.new.job ≡ done_at moment cancelled self.old.job }
        ensures kept { IsKept self.new }
    {
        self.job.done = Some(moment);
        self.job.cancelled = cancelled;
        clear_shares(&mut self.shares);
    }
}

impl<B: Drop> FedJob<B> {
    ghost use Rattle.std.specs.Prelude.{◌≡◌, [], true, false, IfOk, OnOk, map};
    ghost use Rattle.mt_model.specs.JobSteps.{with_entry};
    ghost use Rattle.mt_model.specs.Tasks.{is_ready};
    ghost use Rattle.mt_feeds.specs.FedJob.{AreFeeds, IsKept, lists_of};
    ghost use Rattle.mt_feeds.specs.Opening.{WereShares};

    /// A job of which no task is committed, and whose input has not ended.
    pub fn of(alloc: Global, job: Job<B>) -> Result<FedJob<B>, AllocError>
        requires trace { job.trace ≡ [] }
        requires input { job.ended ≡ false }
        ensures job { IfOk result (λ k. k.job ≡ job) }
        ensures kept { IfOk result IsKept }
    {
        let count = job.document.phases.len();
        let feeds = empty_lists(alloc, count)?;
        let shares = empty_lists(alloc, count)?;
        Ok(FedJob { job, feeds, shares })
    }

    /// A ready task is committed with this entry. The shares of what may then begin are not laid out yet: [`FedJob::open`] lays them
    /// out. On an error, which is want of memory, what is kept may be anything.
    pub fn enter(&mut self, entry: TraceEntry<B>) -> Result<(), AllocError>
        requires kept { IsKept self.old }
        requires ready { is_ready self.old.job entry.phase entry.place ≡ true }
        ensures job { OnOk result (self.new.job ≡ with_entry entry self.old.job) }
        ensures feeds { OnOk result (AreFeeds self.new.job self.new.feeds.items) }
        ensures shares { OnOk result (WereShares self.new.job (map lists_of self.new.shares.items)) }
    {
        let place = self.job.trace.len();
        let count = count_of(&entry.outcome);
        note(&mut self.feeds[entry.phase as usize], place, count)?;
        self.job.trace.push(entry)?;
        Ok(())
    }
}
