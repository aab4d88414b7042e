//! The rows, and what they set.
use crate::reading::{put_asked, put_message, put_stream, source_of};
use crate::replying::{put_head, put_interim, put_reply, sink_of};
use mt_edge::{MemSink, MemSource};
use mt_rows::{Row, Rows, Stop, unescaped};
use std::alloc::{AllocError, Global};

/// The room of a sink at first, in bytes.
const ROOM: usize = 10_000;

/// Bytes are repeated at most so often.
const MOST_TIMES: u64 = 100_000;

/// What the next rows play on, and what the last one counted.
#[derive(Drop)]
pub struct Messages {
    /// The bytes of a source.
    bytes: Vec<u8>,
    /// No read and no write takes more bytes than these; with none, each number from 1 to that of the bytes.
    cuts: Vec<usize>,
    /// The reads and the writes that fail.
    fails: Vec<u64>,
    /// The room of a sink.
    room: usize,
    /// The calls of the last source or sink.
    calls: u64,
    /// The faults of the last source or sink.
    faults: u64,
}

impl Messages {
    /// No bytes, and nothing fails.
    pub fn new(alloc: Global) -> Messages {
        Messages {
            bytes: Vec::new(alloc),
            cuts: Vec::new(alloc),
            fails: Vec::new(alloc),
            room: ROOM,
            calls: 0,
            faults: 0,
        }
    }

    // Adds the bytes of a text so many times.
    fn add(&mut self, alloc: Global, text: &[u8], times: u64) -> Result<(), Stop> {
        let bytes = unescaped(alloc, text)?;
        for _ in 0..times.min(MOST_TIMES) {
            self.bytes.extend_from_slice(&bytes)?;
        }
        Ok(())
    }

    // The bytes of a text in place of those that were set. A text begins behind the first blank of its line.
    fn set_bytes(&mut self, alloc: Global, line: &str) -> Result<(), Stop> {
        self.bytes.clear();
        match line.split_once(' ') {
            Some((_, text)) => self.add(alloc, text.as_bytes(), 1),
            None => Ok(()),
        }
    }

    fn set_cuts(&mut self, alloc: Global, row: &Row) -> Result<(), Stop> {
        let mut cuts = Vec::new(alloc);
        for place in 1..row.len() {
            cuts.push(size_at(row, place)?)?;
        }
        self.cuts = cuts;
        Ok(())
    }

    fn set_fails(&mut self, alloc: Global, row: &Row) -> Result<(), Stop> {
        self.fails = row.numbers(alloc, 1)?;
        Ok(())
    }

    fn set_room(&mut self, row: &Row) -> Result<(), Stop> {
        self.room = size_at(row, 1)?;
        Ok(())
    }

    // Adds the bytes of a word so many times.
    fn add_times(&mut self, row: &Row) -> Result<(), Stop> {
        let times = row.number(1)?.min(MOST_TIMES);
        let bytes = row.bytes(2)?;
        for _ in 0..times {
            self.bytes.extend_from_slice(bytes)?;
        }
        Ok(())
    }

    // The numbers of bytes that a row is played for.
    fn sizes(&self, alloc: Global) -> Result<Vec<usize>, AllocError> {
        if !self.cuts.is_empty() {
            return Vec::from_slice(alloc, &self.cuts);
        }
        let mut sizes = Vec::new(alloc);
        for size in 1..=self.bytes.len().max(1) {
            sizes.push(size)?;
        }
        Ok(sizes)
    }

    // Plays a row over a source.
    fn read(&mut self, alloc: Global, row: &Row, most: usize) -> Result<String, Stop> {
        let mut out = String::new(alloc);
        let mut source = source_of(alloc, &self.bytes, most, &self.fails)?;
        put_read(alloc, row, &mut source, &mut out)?;
        self.calls = source.calls();
        self.faults = source.faults();
        Ok(out)
    }

    // Plays a row over a sink.
    fn write(&mut self, alloc: Global, row: &Row, most: usize) -> Result<String, Stop> {
        let mut out = String::new(alloc);
        let mut sink = sink_of(alloc, self.room, most, &self.fails)?;
        put_write(alloc, row, &mut sink, &mut out)?;
        self.calls = sink.calls();
        self.faults = sink.faults();
        Ok(out)
    }

    fn play(&mut self, alloc: Global, row: &Row, most: usize) -> Result<String, Stop> {
        match row.text(0)? {
            "message" | "asks" | "stream" => self.read(alloc, row, most),
            _ => self.write(alloc, row, most),
        }
    }

    // Plays a row for each number of bytes: the first answer, and each other one that is not the same.
    fn play_each(&mut self, alloc: Global, row: &Row, out: &mut String) -> Result<(), Stop> {
        let sizes = self.sizes(alloc)?;
        self.play_sizes(alloc, row, &sizes, out)
    }

    fn play_sizes(
        &mut self,
        alloc: Global,
        row: &Row,
        sizes: &[usize],
        out: &mut String,
    ) -> Result<(), Stop> {
        let Some((size, others)) = sizes.split_first() else {
            return Ok(());
        };
        let first = self.play(alloc, row, *size)?;
        out.push_str(&first)?;
        self.play_others(alloc, row, others, &first, out)
    }

    fn play_others(
        &mut self,
        alloc: Global,
        row: &Row,
        sizes: &[usize],
        first: &str,
        out: &mut String,
    ) -> Result<(), Stop> {
        for size in sizes {
            let answer = self.play(alloc, row, *size)?;
            put_other(first, &answer, *size, out)?;
        }
        Ok(())
    }

    // Plays a row over the bytes of its own line.
    fn play_line(
        &mut self,
        alloc: Global,
        line: &str,
        row: &Row,
        out: &mut String,
    ) -> Result<(), Stop> {
        self.set_bytes(alloc, line)?;
        self.play_each(alloc, row, out)
    }
}

// An answer that is not the first one.
fn put_other(first: &str, answer: &str, size: usize, out: &mut String) -> Result<(), AllocError> {
    if answer == first {
        return Ok(());
    }
    write!(out, "\n    by {size}: {answer}")
}

fn put_count(count: u64, out: &mut String) -> Result<(), Stop> {
    Ok(write!(out, "{count}")?)
}

fn put_read(
    alloc: Global,
    row: &Row,
    source: &mut MemSource,
    out: &mut String,
) -> Result<(), Stop> {
    match row.text(0)? {
        "message" => put_message(alloc, source, out),
        "asks" => put_asked(alloc, source, out),
        "stream" => put_stream(alloc, source, row.number(1).ok(), out),
        _ => Err(Stop::NoSuchRow),
    }
}

fn put_write(alloc: Global, row: &Row, sink: &mut MemSink, out: &mut String) -> Result<(), Stop> {
    match row.text(0)? {
        "reply" => put_reply(alloc, row, false, sink, out),
        "reply-to-head" => put_reply(alloc, row, true, sink, out),
        "head" => put_head(alloc, row, sink, out),
        "interim" => Ok(put_interim(sink, out)?),
        _ => Err(Stop::NoSuchRow),
    }
}

fn size_at(row: &Row, place: usize) -> Result<usize, Stop> {
    match row.text(place)?.parse::<usize>() {
        Ok(size) => Ok(size),
        Err(_) => Err(Stop::NoSuchRow),
    }
}

impl Rows for Messages {
    fn answer(
        &mut self,
        alloc: Global,
        line: &str,
        row: &Row,
        out: &mut String,
    ) -> Result<(), Stop> {
        match row.text(0)? {
            "bytes" => self.set_bytes(alloc, line),
            "times" => self.add_times(row),
            "cuts" => self.set_cuts(alloc, row),
            "fail" => self.set_fails(alloc, row),
            "room" => self.set_room(row),
            "calls" => put_count(self.calls, out),
            "faults" => put_count(self.faults, out),
            "message" | "asks" if row.len() > 1 => self.play_line(alloc, line, row, out),
            _ => self.play_each(alloc, row, out),
        }
    }
}
