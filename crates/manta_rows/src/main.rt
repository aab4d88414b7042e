//! `manta_rows`: runs of a client over links in memory, row by row. Its stored run is their table of cases.
#![tactic(auto)]

use mt_client::manta;
use mt_edge::{MemLink, MemSink, MemSource};
use mt_rows::{Row, Rows, Stop, print_table, put_escaped, put_line, put_lines};
use std::alloc::Global;
use std::io;

/// What a sink holds beside the bytes that it certainly gets.
const ROOM: usize = 1_048_576;

/// What stands on the link, what the source has, and which of their calls fail.
#[derive(Drop)]
struct Runs {
    replies: Vec<u8>,
    source: Vec<u8>,
    most: u64,
    reads: Vec<u64>,
    writes: Vec<u64>,
    spills: Vec<u64>,
    source_reads: Vec<u64>,
}

/// What a run left.
#[derive(Drop)]
struct Ran {
    status: u8,
    sent: MemSink,
    written: MemSink,
    left: usize,
    source_left: usize,
}

// The words of a client, which stand in a row from a place on.
fn words(alloc: Global, row: &Row, from: usize) -> Result<Vec<String>, Stop> {
    let mut words = Vec::new(alloc);
    for place in from..row.len() {
        words.push(String::from_str(alloc, row.text(place)?)?)?;
    }
    Ok(words)
}

// What stands behind the first word of a line, as it stands.
fn behind(line: &str) -> &str {
    match line.split_once(' ') {
        Some((_call, rest)) => rest,
        None => "",
    }
}

// The line of a row of a page: a name with a slash behind it is a directory's.
fn put_name(body: &mut String, name: &str) -> Result<(), Stop> {
    match name.strip_suffix('/') {
        Some(front) => write!(body, "{{\"name\":\"{front}\",\"type\":\"directory\"}}\n")?,
        None => write!(body, "{{\"name\":\"{name}\",\"type\":\"object\"}}\n")?,
    }
    Ok(())
}

// So many times these bytes more, on the link or in the source.
fn put_many(into: &mut Vec<u8>, row: &Row) -> Result<(), Stop> {
    let bytes = row.bytes(2)?;
    for _time in 0..row.number(1)? {
        into.extend_from_slice(bytes)?;
    }
    Ok(())
}

// One number more.
fn add(numbers: &mut Vec<u64>, number: u64) -> Result<(), Stop> {
    numbers.push(number)?;
    Ok(())
}

// A source of these bytes.
fn source_of(alloc: Global, bytes: &[u8], failing: &[u64], most: u64) -> Result<MemSource, Stop> {
    if most == 0 {
        return Err(Stop::NoSuchRow);
    }
    let source = MemSource::new(alloc, Vec::from_slice(alloc, bytes)?);
    Ok(
        source
            .failing(Vec::from_slice(alloc, failing)?)
            .at_most(most as usize),
    )
}

// A sink with so much room.
fn sink_of(alloc: Global, room: usize, failing: &[u64]) -> Result<MemSink, Stop> {
    let sink = MemSink::new(alloc, room.saturating_add(ROOM))?;
    Ok(sink.failing(Vec::from_slice(alloc, failing)?))
}

impl Runs {
    fn new(alloc: Global) -> Runs {
        Runs {
            replies: Vec::new(alloc),
            source: Vec::new(alloc),
            most: u64::MAX,
            reads: Vec::new(alloc),
            writes: Vec::new(alloc),
            spills: Vec::new(alloc),
            source_reads: Vec::new(alloc),
        }
    }

    // A whole reply of a page with this body.
    fn put_page(&mut self, alloc: Global, body: &str) -> Result<(), Stop> {
        let mut text = String::new(alloc);
        write!(
            text,
            "HTTP/1.1 200 OK\r\nContent-Length: {}\r\nContent-Type: application/x-json-stream; type=directory\r\n\r\n{body}",
            body.len()
        )?;
        self.replies.extend_from_slice(text.as_bytes())?;
        Ok(())
    }

    // A page of these rows.
    fn page(&mut self, alloc: Global, row: &Row) -> Result<(), Stop> {
        let mut body = String::new(alloc);
        for place in 1..row.len() {
            put_name(&mut body, row.text(place)?)?;
        }
        self.put_page(alloc, body.as_str())
    }

    // A page of numbered objects.
    fn objects(&mut self, alloc: Global, row: &Row) -> Result<(), Stop> {
        let mut body = String::new(alloc);
        for number in row.number(1)?..row.number(2)? {
            write!(body, "{{\"name\":\"o{number:04}\",\"type\":\"object\"}}\n")?;
        }
        self.put_page(alloc, body.as_str())
    }

    // Nothing stands anywhere.
    fn clear(&mut self, alloc: Global) -> Result<(), Stop> {
        *self = Runs::new(alloc);
        Ok(())
    }

    // A line more on the link.
    fn put_line(&mut self, line: &str) -> Result<(), Stop> {
        self.replies.extend_from_slice(behind(line).as_bytes())?;
        self.replies.extend_from_slice(b"\r\n")?;
        Ok(())
    }

    // These bytes more on the link.
    fn put_bytes(&mut self, row: &Row) -> Result<(), Stop> {
        self.replies.extend_from_slice(row.bytes(1)?)?;
        Ok(())
    }

    // A read of the link takes at most so many bytes.
    fn limit(&mut self, row: &Row) -> Result<(), Stop> {
        self.most = row.number(1)?;
        Ok(())
    }

    // A call that fails.
    fn fail(&mut self, row: &Row) -> Result<(), Stop> {
        let number = row.number(2)?;
        match row.text(1)? {
            "read" => add(&mut self.reads, number),
            "write" => add(&mut self.writes, number),
            "sink" => add(&mut self.spills, number),
            "source" => add(&mut self.source_reads, number),
            _ => Err(Stop::NoSuchRow),
        }
    }

    // Words are run over the link.
    fn run(&self, alloc: Global, row: &Row) -> Result<Ran, Stop> {
        let words = words(alloc, row, 1)?;
        let mut link = MemLink {
            source: source_of(alloc, &self.replies, &self.reads, self.most)?,
            sink: sink_of(alloc, self.source.len(), &self.writes)?,
        };
        let mut source = source_of(alloc, &self.source, &self.source_reads, u64::MAX)?;
        let mut written = sink_of(alloc, self.replies.len(), &self.spills)?;
        let status = manta(alloc, &words, &mut link, &mut source, &mut written);
        let MemLink { source: rest, sink } = link;
        Ok(Ran {
            status,
            sent: sink,
            written,
            left: rest.left().len(),
            source_left: source.left().len(),
        })
    }
}

// The status, and what is left.
fn put_status(ran: &Ran, out: &mut String) -> Result<(), Stop> {
    write!(
        out,
        "{}, sent {}, written {}, left {} and {}",
        ran.status,
        ran.sent.written().len(),
        ran.written.written().len(),
        ran.left,
        ran.source_left
    )?;
    Ok(())
}

// The same, with what was sent and what was written.
fn put_ran(ran: &Ran, out: &mut String) -> Result<(), Stop> {
    put_status(ran, out)?;
    put_lines(out, ran.sent.written())?;
    if !ran.written.written().is_empty() {
        put_line(out, "=", ran.written.written())?;
    }
    Ok(())
}

// The same, with the last bytes that were written.
fn put_last(ran: &Ran, out: &mut String) -> Result<(), Stop> {
    put_status(ran, out)?;
    let written = ran.written.written();
    let from = written.len().saturating_sub(20);
    out.push_str(", ..")?;
    put_escaped(out, written.get(from..).unwrap_or(b""))?;
    Ok(())
}

impl Runs {
    // A row that isn't of what stands on the link.
    fn answer_more(&mut self, alloc: Global, row: &Row, out: &mut String) -> Result<(), Stop> {
        match row.text(0)? {
            "most" => self.limit(row),
            "fail" => self.fail(row),
            "source" => put_many(&mut self.source, row),
            "run" => put_ran(&self.run(alloc, row)?, out),
            "last" => put_last(&self.run(alloc, row)?, out),
            _ => Err(Stop::NoSuchRow),
        }
    }
}

impl Rows for Runs {
    fn answer(
        &mut self,
        alloc: Global,
        line: &str,
        row: &Row,
        out: &mut String,
    ) -> Result<(), Stop> {
        match row.text(0)? {
            "new" => self.clear(alloc),
            ">" => self.put_line(line),
            ">|" => self.put_bytes(row),
            "many" => put_many(&mut self.replies, row),
            "page" => self.page(alloc, row),
            "objects" => self.objects(alloc, row),
            _ => self.answer_more(alloc, row, out),
        }
    }
}

fn main(rt: HostRuntime) -> io::Result<()> {
    let mut runs = Runs::new(rt.alloc());
    print_table(&rt, &mut runs)
}
