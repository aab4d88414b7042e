//! A session or a serve that is stopped at each call of its disk, and what each kind of crash leaves of it.
use crate::links::Links;
use crate::store::{Ends, Files, Left, run_over};
use mt_disk::{CrashError, MemDisk, Pick};
use mt_rows::Stop;
use std::alloc::{AllocError, Global};

/// What names a position in a reply.
const POSITION: &[u8] = b"x-marlin-position: ";

/// What stands for a position where no reply names one.
const NONE: &[u8] = b"none";

/// The session that asks for the position of a store, and its request.
const SESSION: [&str; 7] = ["session", "--login", "l", "--store", "s", "--at", "0"];

const PROBE: &[u8] = b"HEAD /l/stor HTTP/1.1\r\n\r\n";

/// What a crash leaves of each call since the last sync.
const PICKS: [Pick; 5] = [
    Pick::Nothing,
    Pick::Zeros,
    Pick::Ones,
    Pick::Half,
    Pick::Whole,
];

/// More than all calls between two syncs.
const MOST_PICKS: usize = 12;

// The last position that these replies name, as it is written.
fn position_in(replies: &[u8]) -> &[u8] {
    let Some(at) = replies
        .windows(POSITION.len())
        .rposition(|front| front == POSITION)
    else {
        return NONE;
    };
    let rest = replies
        .get(at.saturating_add(POSITION.len())..)
        .unwrap_or(b"");
    match rest.iter().position(|b| *b == b'\r') {
        Some(end) => rest.get(..end).unwrap_or(rest),
        None => rest,
    }
}

// The last position that the replies of a run name: of a serve that of the last link at which one was.
fn last_told(left: &Left) -> &[u8] {
    let mut told = position_in(left.sink.written());
    for said in &left.said {
        let position = position_in(said);
        if position != NONE {
            told = position;
        }
    }
    told
}

// The words of the session that asks for it.
fn probe_words(alloc: Global) -> Result<Vec<String>, AllocError> {
    let mut words = Vec::new(alloc);
    for word in SESSION {
        words.push(String::from_str(alloc, word)?)?;
    }
    Ok(words)
}

// What it reads.
fn probe_ends(alloc: Global) -> Result<Ends, AllocError> {
    let mut ends = Ends::new(alloc);
    ends.requests.extend_from_slice(PROBE)?;
    Ok(ends)
}

// What it leaves of a store that is opened again.
fn probed(alloc: Global, files: &Files) -> Result<Left, Stop> {
    let words = probe_words(alloc)?;
    let ends = probe_ends(alloc)?;
    run_over(alloc, &words, files, &ends, &Links::new(alloc), &[])
}

// The position that a session told, or its status.
fn put_position(left: &Left, out: &mut String) -> Result<(), Stop> {
    if left.status != 0 {
        return Ok(write!(out, " status {}", left.status)?);
    }
    put_word(out, position_in(left.sink.written()))
}

// The position of a store that is opened again, or the status of a session over it.
fn put_found(alloc: Global, files: &Files, out: &mut String) -> Result<(), Stop> {
    put_position(&probed(alloc, files)?, out)
}

fn put_word(out: &mut String, word: &[u8]) -> Result<(), Stop> {
    out.push(' ')?;
    match str::from_utf8(word) {
        Ok(word) => out.push_str(word)?,
        Err(_) => return Err(Stop::NoSuchRow),
    }
    Ok(())
}

/// A run that is to be stopped: its words, the files, what is read on standard input, and the links at its door.
#[derive(Drop)]
pub struct Attempt<'a> {
    pub words: &'a [String],
    pub files: &'a Files,
    pub ends: &'a Ends,
    pub links: &'a Links,
}

// It, where these calls of the disk fail.
fn stopped(alloc: Global, run: &Attempt<'_>, fails: &[u64]) -> Result<Left, Stop> {
    run_over(alloc, run.words, run.files, run.ends, run.links, fails)
}

/// The files of what a crash left, if it is an image.
pub fn files_of(alloc: Global, image: Result<MemDisk, CrashError>) -> Result<Option<Files>, Stop> {
    match image {
        Ok(image) => Ok(Some(Files::of(alloc, &image)?)),
        Err(CrashError::NotAnImage) => Ok(None),
        Err(CrashError::Memory) => Err(Stop::Memory),
    }
}

// What a crash by these picks leaves of a run in which this call of the disk fails.
fn crashed(
    alloc: Global,
    run: &Attempt<'_>,
    call: u64,
    picks: &[Pick],
) -> Result<Option<Files>, Stop> {
    let left = stopped(alloc, run, &[call])?;
    files_of(alloc, left.disk.crash(picks))
}

// What a crash leaves of such a run where it leaves so much of as many calls as it may, all but so many at least; and but how many.
fn image_of(
    alloc: Global,
    run: &Attempt<'_>,
    call: u64,
    pick: Pick,
    least: usize,
) -> Result<(Files, usize), Stop> {
    let picks = [pick; MOST_PICKS];
    for fewer in least..MOST_PICKS {
        let picks = picks.get(fewer..).unwrap_or(&[]);
        if let Some(files) = crashed(alloc, run, call, picks)? {
            return Ok((files, fewer));
        }
    }
    Err(Stop::NoSuchRow)
}

// The status of a run in which this call of the disk fails, and the position that was told last.
fn put_told(left: &Left, call: u64, out: &mut String) -> Result<(), Stop> {
    write!(out, "\n    call {call}: status {}, told", left.status)?;
    put_word(out, last_told(left))
}

// What such a crash leaves of it; and but how many calls.
fn put_left(
    alloc: Global,
    run: &Attempt<'_>,
    call: u64,
    pick: Pick,
    least: usize,
    out: &mut String,
) -> Result<usize, Stop> {
    let (image, fewer) = image_of(alloc, run, call, pick, least)?;
    put_found(alloc, &image, out)?;
    Ok(fewer)
}

// A run in which this call of the disk fails: its status, the position that was told last, and what crashes leave.
fn put_stop(alloc: Global, run: &Attempt<'_>, call: u64, out: &mut String) -> Result<(), Stop> {
    put_told(&stopped(alloc, run, &[call])?, call, out)?;
    out.push_str(", left")?;
    let mut least = 0;
    for pick in PICKS {
        least = put_left(alloc, run, call, pick, least, out)?;
    }
    Ok(())
}

/// A line for each call of the disk that the run makes: what is told and what is left where that call fails.
pub fn put_stops(alloc: Global, run: &Attempt<'_>, out: &mut String) -> Result<(), Stop> {
    let calls = stopped(alloc, run, &[])?.disk.calls();
    for call in 0..calls {
        put_stop(alloc, run, call, out)?;
    }
    Ok(())
}
