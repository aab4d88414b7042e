//! The rows that take jobs from a list.
ghost use Rattle.std.specs.Prelude.{◌≡◌, ◌≤◌, All, IfOk, length, map};
ghost use Rattle.mt_path.specs.AccountPath.{IsPath};
ghost use Rattle.mt_types.specs.WellMade.{IsDocument};
ghost use Rattle.mt_model.specs.Lawful.{LawfulItem};
ghost use Rattle.mt_jobs.specs.Listed.{IsHead, IsWellMadeEntry};

use crate::account::body;
use crate::listing::{Listing, Taken};
use crate::words::{document, many_lines, narrow, path_of};
use mt_base::Duplicate;
use mt_rows::{Row, Stop};
use mt_types::{
    AssetBodies, Body, Item, Items, Job, JobDocument, MOST_RECORDS, Outcome, Path, Phase, Sequence,
    Text, TraceEntry,
};
use std::alloc::{AllocError, Global};

/// So many inputs are taken at once at most.
const MOST_INPUTS: u64 = 1_000_001;

/// So many entries are taken at once at most.
const MOST_ENTRIES: u64 = 10_000_000;

// An item of so many bytes.
fn item(alloc: Global, path: &Path, len: u64) -> Result<Item<Body>, AllocError>
    requires { IsPath path.now }
    ensures { IfOk result LawfulItem }
{
    Ok(Item {
        name: path.copy(alloc)?,
        root: Text::from_str(alloc, "root")?,
        body: body(len),
        reducer: None,
    })
}

// So many items, of 1, 2, 3 .. bytes.
fn items(alloc: Global, count: u64) -> Result<Items<Body>, Stop>
    ensures each { IfOk result (λ items. All LawfulItem items) }
    ensures few { IfOk result (λ items. length items ≤ count) }
{
    let path = path_of(alloc, b"/l/stor/a")?;
    let mut items = Vec::new(alloc);
    for k in 0..count.min(MOST_INPUTS) {
        items.push(item(alloc, &path, k + 1)?)?;
    }
    Ok(Sequence::from_vec(items))
}

// So many bodies.
fn bodies(alloc: Global, count: usize) -> Result<Sequence<Body>, AllocError>
    ensures { IfOk result (λ s. length s ≡ count) }
{
    let mut bodies = Vec::new(alloc);
    for _k in 0..count {
        bodies.push(body(1))?;
    }
    Ok(Sequence::from_vec(bodies))
}

// A body for each asset of each of these phases.
fn assets(alloc: Global, phases: &[Phase]) -> Result<AssetBodies<Body>, AllocError>
    ensures { IfOk result (λ s. map length s ≡ map (λ p. length p.assets) phases.now) }
{
    let mut all = Vec::new(alloc);
    for phase in phases {
        all.push(bodies(alloc, phase.assets.len())?)?;
    }
    Ok(Sequence::from_vec(all))
}

// A job of this number and document, with so many inputs and missing lines.
fn head(
    alloc: Global,
    document: JobDocument,
    number: u64,
    inputs: u64,
    missing: u64,
) -> Result<Job<Body>, Stop>
    requires { IsDocument document }
    ensures { IfOk result IsHead }
{
    let assets = assets(alloc, document.phases.as_slice())?;
    let missing = Sequence::from_vec(many_lines(alloc, missing)?);
    let inputs = items(alloc, inputs)?;
    Ok(Job {
        number,
        document,
        assets,
        inputs,
        missing,
        ended: false,
        cancelled: false,
        created: 1000,
        done: None,
        trace: Sequence::new(alloc),
    })
}

// The job of a row.
fn head_at(alloc: Global, row: &Row) -> Result<Job<Body>, Stop>
    ensures { IfOk result IsHead }
{
    let number = row.number(2)?;
    let inputs = row.number(3)?;
    let missing = row.number(4)?;
    head(alloc, document(alloc, row)?, number, inputs, missing)
}

// `take DOCUMENT NUMBER INPUTS MISSING`
fn take(listing: Listing, alloc: Global, row: &Row) -> Taken {
    let head = head_at(alloc, row)?;
    listing.take(alloc, head)
}

// An entry with so many outputs.
fn entry(
    alloc: Global,
    phase: u32,
    place: u64,
    position: u64,
    outputs: u64,
) -> Result<TraceEntry<Body>, Stop>
    ensures { IfOk result IsWellMadeEntry }
{
    if outputs > MOST_RECORDS as u64 {
        return Err(Stop::NoSuchRow);
    }
    Ok(TraceEntry {
        phase,
        place,
        position,
        outcome: Outcome::Good(items(alloc, outputs)?),
    })
}

// The entry of a row.
fn entry_at(alloc: Global, row: &Row) -> Result<TraceEntry<Body>, Stop>
    ensures { IfOk result IsWellMadeEntry }
{
    let phase = narrow(row.number(1)?)?;
    let place = row.number(2)?;
    let position = row.number(3)?;
    entry(alloc, phase, place, position, row.number(4)?)
}

// `entry PHASE PLACE POSITION OUTPUTS`
fn enter(listing: Listing, alloc: Global, row: &Row) -> Taken {
    let entry = entry_at(alloc, row)?;
    listing.enter(alloc, entry)
}

// A task of the first phase, without outputs.
fn enter_one(listing: Listing, alloc: Global, place: u64, position: u64) -> Taken {
    let entry = entry(alloc, 0, place, position, 0)?;
    listing.enter(alloc, entry)
}

// `entries COUNT POSITION`: the first tasks of the first phase, without outputs, at positions from one on.
fn enter_many(listing: Listing, alloc: Global, row: &Row) -> Taken {
    let count = row.number(1)?.min(MOST_ENTRIES);
    let first = row.number(2)?;
    let mut listing = listing;
    for place in 0..count {
        let (more, taken) = enter_one(listing, alloc, place, first.saturating_add(place))?;
        listing = more;
        if !taken {
            return Ok((listing, false));
        }
    }
    Ok((listing, true))
}

// `done MOMENT finished`, `done MOMENT cancelled`
fn set_done(listing: Listing, row: &Row) -> Taken {
    let cancelled = row.text(2)? == "cancelled";
    listing.set_done(row.number(1)?, cancelled)
}

/// The jobs after a row that takes something of a list.
pub fn taken(listing: Listing, alloc: Global, row: &Row) -> Taken {
    match row.text(0)? {
        "take" => take(listing, alloc, row),
        "ended" => listing.end(alloc),
        "entry" => enter(listing, alloc, row),
        "entries" => enter_many(listing, alloc, row),
        _ => set_done(listing, row),
    }
}
