//! Rows of `mt_checker`. The login is `l`.
use mt_checker::{CheckEnd, Checked, Checker, check};
use mt_edge::{MemSink, MemSource};
use mt_rows::{Row, Stop, put_escaped};
use std::alloc::Global;
use std::mem;

/// Whose names they are.
const LOGIN: &str = "l";

/// The room of a sink, in bytes.
const SINK_ROOM: usize = 64;

/// A certificate that is put together, and a checker of lines.
#[derive(Drop)]
pub struct Checks {
    bytes: Vec<u8>,
    checker: Checker,
}

// What was said of a line.
fn said(checked: Checked) -> &'static str {
    match checked {
        Checked::Going => "going",
        Checked::Accepted => "accepted",
        Checked::Refused => "refused",
        Checked::Memory => "memory",
    }
}

// The number of a row that names these calls as what fails, in a list.
fn fails_of(alloc: Global, row: &Row, calls: &str) -> Result<Vec<u64>, Stop> {
    match row.text(1) {
        Ok(named) if named == calls => one(alloc, row.number(2)?),
        _ => Ok(Vec::new(alloc)),
    }
}

// One number, as a list.
fn one(alloc: Global, number: u64) -> Result<Vec<u64>, Stop> {
    let mut numbers = Vec::new(alloc);
    numbers.push(number)?;
    Ok(numbers)
}

// Checks a source.
fn put_checked(
    alloc: Global,
    mut source: MemSource,
    mut sink: MemSink,
    out: &mut String,
) -> Result<(), Stop> {
    let end = check(alloc, LOGIN, &mut source, &mut sink);
    put_end(out, end, &sink)
}

// How a check ended, and what it wrote.
fn put_end(out: &mut String, end: CheckEnd, sink: &MemSink) -> Result<(), Stop> {
    write!(out, "{} [", end.code())?;
    put_escaped(out, sink.written())?;
    out.push(']')?;
    Ok(())
}

impl Checks {
    /// No byte, and a checker that has seen no line.
    pub fn new(alloc: Global) -> Result<Checks, Stop> {
        Ok(Checks {
            bytes: Vec::new(alloc),
            checker: Checker::new(alloc, LOGIN)?,
        })
    }

    /// These bytes, and no others.
    pub fn hold(&mut self, bytes: &[u8]) -> Result<(), Stop> {
        self.bytes.clear();
        self.bytes.extend_from_slice(bytes)?;
        Ok(())
    }

    // These bytes more.
    fn put(&mut self, bytes: &[u8], out: &mut String) -> Result<(), Stop> {
        self.bytes.extend_from_slice(bytes)?;
        write!(out, "{}", self.bytes.len())?;
        Ok(())
    }

    // So many times these bytes more.
    fn put_many(&mut self, row: &Row, out: &mut String) -> Result<(), Stop> {
        let bytes = row.bytes(2)?;
        for _time in 0..row.number(1)? {
            self.bytes.extend_from_slice(bytes)?;
        }
        write!(out, "{}", self.bytes.len())?;
        Ok(())
    }

    // The bytes as a source; none are left.
    fn take(&mut self, alloc: Global) -> MemSource {
        MemSource::new(alloc, mem::replace(&mut self.bytes, Vec::new(alloc)))
    }

    // Checks the bytes.
    fn put_check(&mut self, alloc: Global, row: &Row, out: &mut String) -> Result<(), Stop> {
        let reads = fails_of(alloc, row, "read")?;
        let writes = fails_of(alloc, row, "write")?;
        let sink = MemSink::new(alloc, SINK_ROOM)?.failing(writes);
        put_checked(alloc, self.take(alloc).failing(reads), sink, out)
    }

    // A text and a line feed more.
    fn put_line(&mut self, text: &str, out: &mut String) -> Result<(), Stop> {
        self.bytes.extend_from_slice(text.as_bytes())?;
        self.put(b"\n", out)
    }

    fn put_bytes(&mut self, row: &Row, out: &mut String) -> Result<(), Stop> {
        self.put(row.bytes(1)?, out)
    }

    // A checker that has seen no line.
    fn start(&mut self, alloc: Global, out: &mut String) -> Result<(), Stop> {
        self.checker = Checker::new(alloc, LOGIN)?;
        Ok(out.push_str("started")?)
    }

    fn step(&mut self, alloc: Global, text: &str, out: &mut String) -> Result<(), Stop> {
        Ok(out.push_str(said(self.checker.line(alloc, text.as_bytes())))?)
    }

    /// The answer to a row of this crate; behind its first word the line has this text.
    pub fn answer(
        &mut self,
        alloc: Global,
        text: &str,
        row: &Row,
        out: &mut String,
    ) -> Result<(), Stop> {
        match row.text(0)? {
            "put" => self.put_line(text, out),
            "bytes" => self.put_bytes(row, out),
            "many" => self.put_many(row, out),
            "check" => self.put_check(alloc, row, out),
            "new" => self.start(alloc, out),
            "step" => self.step(alloc, text, out),
            _ => Err(Stop::NoSuchRow),
        }
    }
}
