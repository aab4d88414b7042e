//! `helper_rows`: the helpers in memory, and a drill's messages and work, row by row. Its stored run is their table of cases.
#![tactic(auto)]

mod drill;

use mt_edge::{MemSink, MemSource};
use mt_helper::{Status, helper};
use mt_rows::{Row, Rows, Stop, print_table, put_escaped};
use mt_spawn::{MemFile, MemSpool, Spool};
use std::alloc::Global;
use std::io;

/// The room of a sink, in bytes.
const SINK_ROOM: usize = 1 << 20;

/// The room of a spool, in bytes.
const SPOOL_ROOM: usize = 1 << 26;

/// Longer bytes are shown by their number.
const MOST_SHOWN: usize = 200;

// The words of a helper, which stand in a row from a place on.
fn words(alloc: Global, row: &Row, from: usize) -> Result<Vec<String>, Stop> {
    let mut words = Vec::new(alloc);
    for place in from..row.len() {
        words.push(String::from_str(alloc, row.text(place)?)?)?;
    }
    Ok(words)
}

// One number, as a list.
fn one(alloc: Global, number: u64) -> Result<Vec<u64>, Stop> {
    let mut numbers = Vec::new(alloc);
    numbers.push(number)?;
    Ok(numbers)
}

// A source of these bytes.
fn source_of(alloc: Global, bytes: &[u8]) -> Result<MemSource, Stop> {
    let mut copy = Vec::new(alloc);
    copy.extend_from_slice(bytes)?;
    Ok(MemSource::new(alloc, copy))
}

// A spool that has files of the first numbers.
fn taken(alloc: Global, count: u64) -> MemSpool {
    let mut spool = MemSpool::new(alloc, SPOOL_ROOM);
    for number in 0..count.min(5_000) as u32 {
        spool.create_new(number);
    }
    spool
}

pub(crate) fn put_bytes(out: &mut String, bytes: &[u8]) -> Result<(), Stop> {
    if bytes.len() > MOST_SHOWN {
        write!(out, " ({} bytes)", bytes.len())?;
        return Ok(());
    }
    out.push_str(" [")?;
    put_escaped(out, bytes)?;
    out.push(']')?;
    Ok(())
}

fn put_files(out: &mut String, files: &[MemFile]) -> Result<(), Stop> {
    for file in files {
        write!(out, "; {}", file.number)?;
        put_bytes(out, &file.bytes)?;
    }
    Ok(())
}

// How a helper ended, what the sink got, how much of the source is left, and the files behind the first ones.
fn put_end(
    out: &mut String,
    status: Status,
    source: &MemSource,
    sink: &MemSink,
    files: &[MemFile],
) -> Result<(), Stop> {
    write!(out, "{} left {}", status.code(), source.left().len())?;
    put_bytes(out, sink.written())?;
    put_files(out, files)
}

// Runs a helper over these ends. So many files of the spool are not shown.
fn play(
    alloc: Global,
    words: &[String],
    mut source: MemSource,
    mut sink: MemSink,
    mut spool: MemSpool,
    hidden: usize,
    out: &mut String,
) -> Result<(), Stop> {
    let status = helper(alloc, words, &mut source, &mut sink, &mut spool);
    let files = spool.files();
    put_end(
        out,
        status,
        &source,
        &sink,
        &files[hidden.min(files.len())..],
    )
}

// No call fails.
fn put_run(alloc: Global, row: &Row, out: &mut String) -> Result<(), Stop> {
    let words = words(alloc, row, 2)?;
    let source = source_of(alloc, row.bytes(1)?)?;
    let sink = MemSink::new(alloc, SINK_ROOM)?;
    play(
        alloc,
        &words,
        source,
        sink,
        MemSpool::new(alloc, SPOOL_ROOM),
        0,
        out,
    )
}

// So many numbers are taken.
fn put_taken(alloc: Global, row: &Row, out: &mut String) -> Result<(), Stop> {
    let words = words(alloc, row, 3)?;
    let count = row.number(1)?;
    let source = source_of(alloc, row.bytes(2)?)?;
    let sink = MemSink::new(alloc, SINK_ROOM)?;
    play(
        alloc,
        &words,
        source,
        sink,
        taken(alloc, count),
        count.min(5_000) as usize,
        out,
    )
}

// The spool has room for so many bytes.
fn put_room(alloc: Global, row: &Row, out: &mut String) -> Result<(), Stop> {
    let words = words(alloc, row, 3)?;
    let room = row.number(1)? as usize;
    let source = source_of(alloc, row.bytes(2)?)?;
    let sink = MemSink::new(alloc, SINK_ROOM)?;
    play(
        alloc,
        &words,
        source,
        sink,
        MemSpool::new(alloc, room),
        0,
        out,
    )
}

// A read fails, a write, or a call of the spool.
fn put_failing(alloc: Global, row: &Row, out: &mut String) -> Result<(), Stop> {
    let words = words(alloc, row, 4)?;
    let call = row.number(2)?;
    let source = source_of(alloc, row.bytes(3)?)?;
    let sink = MemSink::new(alloc, SINK_ROOM)?;
    let spool = MemSpool::new(alloc, SPOOL_ROOM);
    let calls = one(alloc, call)?;
    match row.text(1)? {
        "source" => play(alloc, &words, source.failing(calls), sink, spool, 0, out),
        "sink" => play(alloc, &words, source, sink.failing(calls), spool, 0, out),
        "spool" => play(alloc, &words, source, sink, spool.failing(calls), 0, out),
        _ => Err(Stop::NoSuchRow),
    }
}

#[derive(Drop)]
struct Helpers;

impl Rows for Helpers {
    fn answer(
        &mut self,
        alloc: Global,
        _line: &str,
        row: &Row,
        out: &mut String,
    ) -> Result<(), Stop> {
        match row.text(0)? {
            "run" => put_run(alloc, row, out),
            "taken" => put_taken(alloc, row, out),
            "room" => put_room(alloc, row, out),
            "fails" => put_failing(alloc, row, out),
            "messages" => drill::put_messages(alloc, row, out),
            "reads" => drill::put_reads(alloc, row, out),
            "work" => drill::put_work(alloc, row, out),
            _ => Err(Stop::NoSuchRow),
        }
    }
}

fn main(rt: HostRuntime) -> io::Result<()> {
    print_table(&rt, &mut Helpers)
}
