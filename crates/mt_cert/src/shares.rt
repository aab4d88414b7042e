//! A phase that is to be listed, with the places that each of its reducers reads.
ghost use Rattle.std.specs.Prelude.{◌≡◌, ◌<◌, ◌+◌, [], length, replicate, IfOk, OnOk, List, ◌++◌};
ghost use Rattle.mt_types.specs.WellMade.{HasReducers};
ghost use Rattle.mt_model.specs.Types.{Body, Item};
ghost use Rattle.mt_model.specs.Feed.{entries_of, feed, items_in, items_of};
ghost use Rattle.mt_model.specs.Tasks.{reducer_of};
ghost use Rattle.mt_feeds.specs.FedJob.{all_shares, lists_of};
ghost use Rattle.mt_feeds.specs.Opening.{with_place_read};
ghost use Rattle.mt_cert.specs.Laying.{AreShared};
ghost use Rattle.mt_cert.specs.Reading.{IsOpened};

use mt_types::{Body, Item, Job, Outcome, PhaseKind, TraceEntry};
use std::alloc::{AllocError, Global};

/// A phase that is to be listed.
#[derive(Drop)]
pub(crate) struct Opened {
    /// Its number, counted from 0.
    pub phase: u32,
    /// How it cuts its feed into tasks.
    pub kind: PhaseKind,
    /// The places that each reducer reads; none of a map phase.
    pub shares: Vec<Vec<u64>>,
}

/// The places of so many items, by the reducers that read them.
#[derive(Drop)]
pub(crate) struct Shares {
    /// The places that each reducer reads.
    pub lists: Vec<Vec<u64>>,
    /// The number of items so far.
    pub count: u64,
}

/// The outputs of a task.
pub(crate) fn items_of(outcome: &Outcome<Body>) -> &[Item<Body>]
    ensures { result.now ≡ items_of outcome.now }
{
    match outcome {
        Outcome::Good(items) => items.as_slice(),
        Outcome::Bad { .. } => &[],
    }
}

// The reducer that an item names, or else its place in the feed.
fn reducer_of(item: &Item<Body>, place: u64) -> u64
    ensures { result ≡ reducer_of (place, item.now) }
{
    match item.reducer {
        Some(reducer) => u64::from(reducer),
        None => place,
    }
}

// Adds a place to those of its reducer.
fn add_place(
    lists: &mut Vec<Vec<u64>>,
    count: u32,
    item: &Item<Body>,
    place: u64,
) -> Result<(), AllocError>
    requires some { 0 < count }
    requires each { length lists.old.items ≡ count }
    ensures each { OnOk result (length lists.new.items ≡ count) }
    ensures lists { OnOk result (lists_of lists.new ≡ with_place_read count place item.now (lists_of lists.old)) }
{
    let reducer = reducer_of(item, place) % u64::from(count);
    lists[reducer as usize].push(place)?;
    Ok(())
}

// Adds an item. On an error, which is want of memory, the shares may hold anything.
fn add_item(shares: &mut Shares, reducers: u32, item: &Item<Body>) -> Result<(), AllocError>
    requires some { 0 < reducers }
    requires each { length shares.old.lists.items ≡ reducers }
    ensures lists { OnOk result (lists_of shares.new.lists ≡ with_place_read reducers shares.old.count item.now (lists_of shares.old.lists)) }
    ensures count { OnOk result (shares.new.count ≡ shares.old.count + 1) }
    ensures each { OnOk result (length shares.new.lists.items ≡ reducers) }
{
    let Some(count) = shares.count.checked_add(1) else {
        return Err(AllocError);
    };
    add_place(&mut shares.lists, reducers, item, shares.count)?;
    shares.count = count;
    Ok(())
}

// Adds items, the same.
fn add_items(shares: &mut Shares, reducers: u32, items: &[Item<Body>]) -> Result<(), AllocError>
    requires some { 0 < reducers }
    requires each { length shares.old.lists.items ≡ reducers }
    ensures each { OnOk result (length shares.new.lists.items ≡ reducers) }
    ensures laid { OnOk result ((front : List (Item Body)) → AreShared front reducers shares.old → AreShared (front ++ items.now) reducers shares.new) }
{
    for item in items {
        add_item(shares, reducers, item)?;
    }
    Ok(())
}

// Adds what the tasks of a phase gave, the same.
fn add_given(
    shares: &mut Shares,
    reducers: u32,
    phase: u32,
    trace: &[TraceEntry<Body>],
) -> Result<(), AllocError>
    requires some { 0 < reducers }
    requires each { length shares.old.lists.items ≡ reducers }
    ensures each { OnOk result (length shares.new.lists.items ≡ reducers) }
    ensures laid { OnOk result ((front : List (Item Body)) → AreShared front reducers shares.old → AreShared (front ++ items_in (entries_of phase trace.now)) reducers shares.new) }
{
    for entry in trace {
        if entry.phase == phase {
            add_items(shares, reducers, items_of(&entry.outcome))?;
        }
    }
    Ok(())
}

// Adds what a phase reads, the same.
fn add_feed(
    shares: &mut Shares,
    reducers: u32,
    job: &Job<Body>,
    phase: u32,
) -> Result<(), AllocError>
    requires some { 0 < reducers }
    requires each { length shares.old.lists.items ≡ reducers }
    ensures { OnOk result (AreShared [] reducers shares.old → AreShared (feed job.now phase) reducers shares.new) }
{
    match phase.checked_sub(1) {
        None => add_items(shares, reducers, job.inputs.as_slice()),
        Some(before) => add_given(shares, reducers, before, job.trace.as_slice()),
    }
}

// No places for each of so many reducers.
fn no_places(alloc: Global, reducers: u32) -> Result<Vec<Vec<u64>>, AllocError>
    ensures { IfOk result (λ v. lists_of v ≡ replicate reducers []) }
{
    let mut lists = Vec::new(alloc);
    for _list in 0..reducers {
        lists.push(Vec::new(alloc))?;
    }
    Ok(lists)
}

// The shares of the reducers of a phase.
fn lay(
    alloc: Global,
    job: &Job<Body>,
    phase: u32,
    reducers: u32,
) -> Result<Vec<Vec<u64>>, AllocError>
    requires { 0 < reducers }
    ensures { IfOk result (λ v. lists_of v ≡ all_shares (feed job.now phase) reducers) }
{
    let mut shares = Shares {
        lists: no_places(alloc, reducers)?,
        count: 0,
    };
    add_feed(&mut shares, reducers, job, phase)?;
    let Shares { lists, count: _ } = shares;
    Ok(lists)
}

/// A phase of a job, ready to be listed: of a reduce phase the shares are laid out, by one walk over the committed tasks.
pub(crate) fn open(
    alloc: Global,
    job: &Job<Body>,
    phase: u32,
    kind: PhaseKind,
) -> Result<Opened, AllocError>
    requires { HasReducers kind }
    ensures { IfOk result (IsOpened phase kind (feed job.now phase)) }
{
    let shares = match kind {
        PhaseKind::Map => Vec::new(alloc),
        PhaseKind::Reduce { count } => lay(alloc, job, phase, count)?,
    };
    Ok(Opened {
        phase,
        kind,
        shares,
    })
}
