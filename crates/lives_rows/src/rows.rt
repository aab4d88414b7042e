//! Stops, chains of lives, and faults.
use crate::lives::{Crash, Life, MOST_PICKS, put_told};
use crate::store::{Faults, Files, Left};
use crate::story::{Place, Story};
use mt_disk::Pick;
use mt_rows::{Row, Stop};
use std::alloc::Global;

/// What a crash leaves of each call since the last sync, with its name.
const PICKS: [(&str, Pick); 5] = [
    ("nothing", Pick::Nothing),
    ("zeros", Pick::Zeros),
    ("ones", Pick::Ones),
    ("half", Pick::Half),
    ("whole", Pick::Whole),
];

/// How many lives a chain has.
const LIVES: usize = 5;

fn pick_of(name: &str) -> Result<Pick, Stop> {
    for (known, pick) in PICKS {
        if known == name {
            return Ok(pick);
        }
    }
    Err(Stop::NoSuchRow)
}

// A line for each run of calls that have the same text.
fn put_folded(lines: &[String], out: &mut String) -> Result<(), Stop> {
    let mut first = 0;
    for place in 0..lines.len() {
        let line = &lines[place];
        if lines.get(place.saturating_add(1)) != Some(line) {
            write!(out, "\n    call {first} to {place}: {line}")?;
            first = place.saturating_add(1);
        }
    }
    Ok(())
}

// The text of a life that is stopped, and of the next one. Gives of how many calls the crash left what it may.
fn put_stop(alloc: Global, life: &Life<'_>, crash: Crash, out: &mut String) -> Result<usize, Stop> {
    let (place, picks) = life.put_crash(alloc, crash, out)?;
    out.push_str(", then ")?;
    life.story.put_end(alloc, &place, out)?;
    Ok(picks)
}

// A text for each call of the disk of a life. Each call adds one at most to those of which a crash may leave something else.
fn stops_of(alloc: Global, life: &Life<'_>, pick: Pick) -> Result<Vec<String>, Stop> {
    let mut lines = Vec::new(alloc);
    let mut picks = 0usize;
    for call in 0..life.whole.disk.calls() {
        let mut line = String::new(alloc);
        let most = picks.saturating_add(1);
        picks = put_stop(alloc, life, Crash { call, pick, most }, &mut line)?;
        lines.push(line)?;
    }
    Ok(lines)
}

// The texts of a life that is stopped in each call of its disk, folded.
fn put_lines(alloc: Global, life: &Life<'_>, pick: Pick, out: &mut String) -> Result<(), Stop> {
    let lines = stops_of(alloc, life, pick)?;
    put_folded(&lines, out)
}

// The life at a place, stopped in each call of its disk, and the one behind it.
fn put_stops_at(
    alloc: Global,
    story: &Story,
    at: &Place,
    pick: Pick,
    out: &mut String,
) -> Result<(), Stop> {
    let whole = story.live(alloc, at, Faults::none(alloc))?;
    let life = Life {
        story,
        at,
        whole: &whole,
    };
    put_lines(alloc, &life, pick, out)
}

/// The first life, stopped in each call of its disk, and the one behind it.
pub fn put_stops(alloc: Global, story: &Story, row: &Row, out: &mut String) -> Result<(), Stop> {
    let pick = pick_of(row.text(1)?)?;
    put_stops_at(alloc, story, &Place::first(alloc), pick, out)
}

// The next of a row of numbers, each of which is made from the one before it.
fn next_random(state: &mut u64) -> u64 {
    *state = state
        .wrapping_mul(6_364_136_223_846_793_005)
        .wrapping_add(1_442_695_040_888_963_407);
    *state >> 33
}

// The crash of a life in a call that chance picks. Gives where its story stands then.
fn put_chance(
    alloc: Global,
    life: &Life<'_>,
    seed: &mut u64,
    out: &mut String,
) -> Result<Place, Stop> {
    let calls = life.whole.disk.calls();
    let call = next_random(seed).checked_rem(calls).unwrap_or(0);
    let (name, pick) = PICKS[(next_random(seed) % 5) as usize];
    write!(out, "\n    call {call}, {name}: ")?;
    let most = MOST_PICKS;
    let (place, _) = life.put_crash(alloc, Crash { call, pick, most }, out)?;
    Ok(place)
}

// The next life of a chain, which is stopped in a call that chance picks.
fn put_link(
    alloc: Global,
    story: &Story,
    at: &Place,
    seed: &mut u64,
    out: &mut String,
) -> Result<Place, Stop> {
    let whole = story.live(alloc, at, Faults::none(alloc))?;
    let life = Life {
        story,
        at,
        whole: &whole,
    };
    put_chance(alloc, &life, seed, out)
}

/// Lives one after another, each but the last stopped where chance has it, which begins with the row's number.
pub fn put_chain(alloc: Global, story: &Story, row: &Row, out: &mut String) -> Result<(), Stop> {
    let mut seed = row.number(1)?;
    let mut at = Place::first(alloc);
    for _ in 1..LIVES {
        at = put_link(alloc, story, &at, &mut seed, out)?;
    }
    out.push_str("\n    last: ")?;
    story.put_end(alloc, &at, out)
}

// What a row says that fails.
fn faults_of(alloc: Global, row: &Row) -> Result<Faults, Stop> {
    let mut faults = Faults::none(alloc);
    let numbers = row.numbers(alloc, 2)?;
    match row.text(1)? {
        "starts" => faults.script.starts_fail = numbers,
        "waits" => faults.script.waits_fail = numbers,
        "parts" => faults.script.reads_fail = numbers,
        "inputs" => faults.disk = numbers,
        _ => return Err(Stop::NoSuchRow),
    }
    Ok(faults)
}

// Appends what is found behind a life that left this. Gives where the story stands.
fn put_found(
    alloc: Global,
    story: &Story,
    at: &Place,
    left: &Left,
    out: &mut String,
) -> Result<Place, Stop> {
    let files = Files::of(alloc, &left.disk)?;
    let (place, found) = story.behind(alloc, at, left.sink.written(), files)?;
    write!(out, ", found {found}, faults {}, then ", left.faults)?;
    Ok(place)
}

// Appends how a life ended that left this, and the one behind it.
fn put_behind(
    alloc: Global,
    story: &Story,
    at: &Place,
    left: &Left,
    out: &mut String,
) -> Result<(), Stop> {
    put_told(left.status, left.sink.written(), out)?;
    let place = put_found(alloc, story, at, left, out)?;
    story.put_end(alloc, &place, out)
}

// The life at a place in which something fails, and the one behind it.
fn put_faults_at(
    alloc: Global,
    story: &Story,
    at: &Place,
    faults: Faults,
    out: &mut String,
) -> Result<(), Stop> {
    let left = story.live(alloc, at, faults)?;
    put_behind(alloc, story, at, &left, out)
}

/// A life in which something fails, and the one behind it.
pub fn put_faults(alloc: Global, story: &Story, row: &Row, out: &mut String) -> Result<(), Stop> {
    let faults = faults_of(alloc, row)?;
    put_faults_at(alloc, story, &Place::first(alloc), faults, out)
}
