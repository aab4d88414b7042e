//! The shares of the reducers of a phase, laid out once.
ghost use Rattle.std.specs.Prelude.{◌≡◌, ◌<◌, length, map, IfOk, OnOk};
ghost use Rattle.mt_model.specs.Feed.{feed};
ghost use Rattle.mt_model.specs.Tasks.{reducer_of};
ghost use Rattle.mt_types.specs.WellMade.{IsDocument};
ghost use Rattle.mt_feeds.specs.FedJob.{AreFeeds, all_shares, lists_of};
ghost use Rattle.mt_feeds.specs.Opening.{opened_at, wanted_of, with_place_read};

use crate::kept::{FedJob, empty_lists};
use mt_sched::Queue;
use mt_types::{Item, PhaseKind};
use std::alloc::{AllocError, Global};

// The reducer that an item names, or else its place in the feed.
fn reducer_of<B>(item: &Item<B>, place: usize) -> u64
    ensures { result ≡ reducer_of (place, item.now) }
{
    match item.reducer {
        Some(reducer) => u64::from(reducer),
        None => place as u64,
    }
}

// Adds a place to the share of its reducer.
fn add_place<B>(
    shares: &mut Vec<Vec<usize>>,
    count: u32,
    item: &Item<B>,
    place: usize,
) -> Result<(), AllocError>
    requires some { 0 < count }
    requires each { length shares.old.items ≡ count }
    ensures { OnOk result (lists_of shares.new ≡ with_place_read count place item.now (lists_of shares.old)) }
{
    let reducer = reducer_of(item, place) % u64::from(count);
    shares[reducer as usize].push(place)?;
    Ok(())
}

// The places that each of so many reducers reads of what a phase reads.
fn lay<B>(
    alloc: Global,
    kept: &FedJob<B>,
    phase: u32,
    count: u32,
) -> Result<Vec<Vec<usize>>, AllocError>
    requires feeds { AreFeeds kept.now.job kept.now.feeds.items }
    requires phase { phase < length kept.now.job.document.phases }
    requires some { 0 < count }
    ensures { IfOk result (λ s. lists_of s ≡ all_shares (feed kept.now.job phase) count) }
{
    let mut shares = empty_lists(alloc, count as usize)?;
    for place in 0..kept.feed_len(phase) {
        let Some(item) = kept.item(phase, place as u64) else {
            unreachable!()
        };
        add_place(&mut shares, count, item, place)?;
    }
    Ok(shares)
}

// The number of reducers of a phase whose shares are to be laid out: it has begun, and they are not.
fn wanted<B>(kept: &FedJob<B>, phase: u32, queue: &Queue) -> Option<u32>
    requires phase { phase < length kept.now.job.document.phases }
    requires shares { length kept.now.shares.items ≡ length kept.now.job.document.phases }
    ensures { result ≡ wanted_of queue.now kept.now.job.document.phases (map lists_of kept.now.shares.items) phase }
{
    let index = phase as usize;
    match kept.job.document.phases.as_slice()[index].kind {
        PhaseKind::Map => None,
        PhaseKind::Reduce { count } => {
            if kept.shares[index].is_empty() && queue.is_task(phase, 0) {
                Some(count)
            } else {
                None
            }
        }
    }
}

// Lays the shares of a phase out, where it has begun and they are not.
fn open_phase<B>(
    alloc: Global,
    kept: &mut FedJob<B>,
    phase: u32,
    queue: &Queue,
) -> Result<(), AllocError>
    requires feeds { AreFeeds kept.old.job kept.old.feeds.items }
    requires phase { phase < length kept.old.job.document.phases }
    requires shares { length kept.old.shares.items ≡ length kept.old.job.document.phases }
    requires document { IsDocument kept.old.job.document }
    ensures job { kept.new.job ≡ kept.old.job }
    ensures feeds { kept.new.feeds ≡ kept.old.feeds }
    ensures shares { OnOk result (map lists_of kept.new.shares.items ≡ opened_at queue.now kept.old.job (map lists_of kept.old.shares.items) phase) }
{
    if let Some(count) = wanted(kept, phase, queue) {
        let laid = lay(alloc, kept, phase, count)?;
        kept.shares[phase as usize] = laid;
    }
    Ok(())
}

impl<B> FedJob<B> {
    ghost use Rattle.std.specs.Prelude.{◌≡◌, true, OnOk, map};
    ghost use Rattle.mt_types.specs.WellMade.{IsDocument};
    ghost use Rattle.mt_model.specs.Tasks.{is_running};
    ghost use Rattle.mt_sched.specs.PlanOfJob.{plan_of};
    ghost use Rattle.mt_feeds.specs.FedJob.{AreFeeds, IsKept, lists_of};
    ghost use Rattle.mt_feeds.specs.Opening.{WereShares};

    /// Lays out the shares of each phase that has begun, by the queue of the job, where they are not. On an error, which is want of
    /// memory, some may be laid out.
    pub fn open(&mut self, alloc: Global, queue: &Queue) -> Result<(), AllocError>
        requires feeds { AreFeeds self.old.job self.old.feeds.items }
        requires document { IsDocument self.old.job.document }
        requires runs { is_running self.old.job ≡ true }
        requires plan { queue.now ≡ plan_of self.old.job }
        requires shares { WereShares self.old.job (map lists_of self.old.shares.items) }
        ensures job { self.new.job ≡ self.old.job }
        ensures kept { OnOk result (IsKept self.new) }
    {
        let count = self.job.document.phases.len() as u32;
        for phase in 0..count {
            open_phase(alloc, self, phase, queue)?;
        }
        Ok(())
    }
}
