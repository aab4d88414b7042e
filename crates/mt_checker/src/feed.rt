//! What a phase reads, as far as a checker keeps it.
ghost use Rattle.std.specs.Prelude.{◌≡◌, [], IfOk, OnOk, replicate};
ghost use Rattle.mt_model.specs.Tasks.{reducer_of};
ghost use Rattle.mt_feeds.specs.FedJob.{all_shares, lists_of};
ghost use Rattle.mt_certline.specs.declared.line.Sum.{Sum};
ghost use Rattle.mt_checker.specs.Feeds.{shares_in, shares_with};

use mt_certline::Sum;
use mt_path::Path;
use mt_types::{Item, Items, PhaseKind};
use std::alloc::{AllocError, Global};
use std::marker::Model;

/// The items that a phase reads: their number, of a reduce phase the places that each reducer reads, and past the last phase
/// their names. Digests and sizes aren't kept.
#[derive(Drop)]
pub(crate) struct Gathered {
    kind: Option<PhaseKind>,
    count: u64,
    shares: Vec<Vec<u64>>,
    names: Vec<Path>,
}

impl Model for Gathered {
    ghost use Rattle.mt_feeds.specs.FedJob.{lists_of};
    ghost use Rattle.mt_checker.specs.Feeds.{Feed};

    ghost Value = { Feed };

    ghost view = { λ f. record { kind = f.kind; count = f.count; shares = lists_of f.shares; names = f.names.items } };
}

// The reducer that an item names, or else its place in the feed.
fn reducer_of(item: &Item<Sum>, place: u64) -> u64
    ensures { result ≡ reducer_of (place, item.now) }
{
    match item.reducer {
        Some(reducer) => u64::from(reducer),
        None => place,
    }
}

// Adds the place of an item to those that its reducer reads, if there are reducers.
fn share_out(shares: &mut Vec<Vec<u64>>, place: u64, item: &Item<Sum>) -> Result<(), AllocError>
    ensures { OnOk result (lists_of shares.new ≡ shares_with place item.now (lists_of shares.old)) }
{
    let count = shares.len();
    if count == 0 {
        return Ok(());
    }
    let reducer = reducer_of(item, place) % count as u64;
    shares[reducer as usize].push(place)?;
    Ok(())
}

// So many empty lists.
fn empty_lists(alloc: Global, count: u32) -> Result<Vec<Vec<u64>>, AllocError>
    ensures { IfOk result (λ v. lists_of v ≡ replicate count []) }
{
    let mut lists = Vec::new(alloc);
    for _list in 0..count {
        lists.push(Vec::new(alloc))?;
    }
    Ok(lists)
}

// No place for each of so many reducers.
fn empty_shares(alloc: Global, count: u32) -> Result<Vec<Vec<u64>>, AllocError>
    ensures { IfOk result (λ v. lists_of v ≡ all_shares {B = Sum} [] count) }
{
    let lists = empty_lists(alloc, count)?;
    Ok(lists)
}

// No place for each reducer of a phase of this kind.
fn shares_of(alloc: Global, kind: Option<PhaseKind>) -> Result<Vec<Vec<u64>>, AllocError>
    ensures { IfOk result (λ v. lists_of v ≡ shares_in kind []) }
{
    match kind {
        None => Ok(Vec::new(alloc)),
        Some(PhaseKind::Map) => Ok(Vec::new(alloc)),
        Some(PhaseKind::Reduce { count }) => empty_shares(alloc, count),
    }
}

impl Gathered {
    ghost use Rattle.std.specs.Prelude.{◌≡◌, [], IfOk, OnOk};
    ghost use Rattle.mt_checker.specs.Feeds.{feed_of, reads_in, tasks_over, with_all, with_read};

    /// No items, which a phase of this kind reads; none past the last phase.
    pub(crate) fn new(alloc: Global, kind: Option<PhaseKind>) -> Result<Gathered, AllocError>
        ensures { IfOk result (λ f. f ≡ feed_of kind []) }
    {
        let shares = shares_of(alloc, kind)?;
        Ok(Gathered {
            kind,
            count: 0,
            shares,
            names: Vec::new(alloc),
        })
    }

    /// One item more. On an error, which is want of memory, it may hold anything.
    pub(crate) fn add(&mut self, item: Item<Sum>) -> Result<(), AllocError>
        ensures { OnOk result (self.new ≡ with_read self.old item) }
    {
        if self.count == u64::MAX {
            return Err(AllocError);
        }
        share_out(&mut self.shares, self.count, &item)?;
        self.count += 1;
        let Item {
            name,
            root: _,
            body: _,
            reducer: _,
        } = item;
        if self.kind.is_none() {
            self.names.push(name)?;
        }
        Ok(())
    }

    /// These items more, the same.
    pub(crate) fn add_all(&mut self, items: Items<Sum>) -> Result<(), AllocError>
        ensures { OnOk result (self.new ≡ with_all self.old items) }
    {
        for item in items.into_vec() {
            self.add(item)?;
        }
        Ok(())
    }

    /// The number of tasks over it; none past the last phase.
    pub(crate) fn tasks(&self) -> u64
        ensures { result ≡ tasks_over self.now.kind self.now.count }
    {
        match self.kind {
            None => 0,
            Some(PhaseKind::Map) => self.count,
            Some(PhaseKind::Reduce { count }) => u64::from(count),
        }
    }

    /// Whether these are the places that the task at a place reads.
    pub(crate) fn is_read(&self, place: u64, reads: &[u64]) -> bool
        ensures { result ≡ reads_in self.now.kind self.now.shares place reads.now }
    {
        match self.kind {
            None => false,
            Some(PhaseKind::Map) => match reads {
                [only] => *only == place,
                _ => false,
            },
            Some(PhaseKind::Reduce { count: _ }) => match self.shares.get(place as usize) {
                Some(share) => reads == share.as_slice(),
                None => false,
            },
        }
    }

    /// The names.
    pub(crate) fn into_names(self) -> Vec<Path>
        ensures { result.items ≡ self.names }
    {
        let Gathered {
            kind: _,
            count: _,
            shares: _,
            names,
        } = self;
        names
    }
}
