//! Rows of `mt_cert`. The login is `l`.
ghost use Rattle.std.specs.Prelude.{◌<◌, ◌^◌, IfOk};
ghost use Rattle.mt_types.specs.WellMade.{IsDocument};

use mt_base::{Bytes, Duplicate, Sequence};
use mt_cert::{Written, certificate_fits, write_certificate};
use mt_certline::{Line, Listed, Sum, read_line};
use mt_edge::MemSink;
use mt_jobdoc::{documents_are_documents, read};
use mt_rows::{Row, Stop, put_escaped};
use mt_types::{Body, Item, Items, Job, JobDocument, Outcome, TaskFailure, TraceEntry};
use std::alloc::Global;

/// Whose names they are.
const LOGIN: &str = "l";

/// The room of a sink where a row names none, in bytes.
const SINK_ROOM: u64 = 1_048_576;

/// A job that is put together, and what was written of it.
#[derive(Drop)]
pub struct Jobs {
    number: u64,
    document: Vec<u8>,
    inputs: Vec<Item<Body>>,
    trace: Vec<TraceEntry<Body>>,
    written: Vec<u8>,
}

// An item whose body has this sum.
fn stored(item: Item<Sum>) -> Item<Body> {
    let Item {
        name,
        root,
        body,
        reducer,
    } = item;
    let Sum { md5, size } = body;
    let body = Body {
        first: 0,
        len: size,
        md5,
    };
    Item {
        name,
        root,
        body,
        reducer,
    }
}

// What a task came to.
fn outcome(alloc: Global, outputs: Option<Items<Sum>>) -> Result<Outcome<Body>, Stop> {
    let Some(outputs) = outputs else {
        return Ok(Outcome::Bad {
            failure: TaskFailure::UserTaskError,
            status: 1,
            stderr: Bytes::from_vec(Vec::new(alloc)),
        });
    };
    let mut items = Vec::new(alloc);
    for item in outputs.into_vec() {
        items.push(stored(item))?;
    }
    Ok(Outcome::Good(Sequence::from_vec(items)))
}

// The outputs of a task, and its last one so many times more.
fn grown(alloc: Global, outcome: Outcome<Body>, times: u64) -> Result<Outcome<Body>, Stop> {
    let Outcome::Good(items) = outcome else {
        return Err(Stop::NoSuchRow);
    };
    let mut items = items.into_vec();
    let Some(last) = items.pop() else {
        return Err(Stop::NoSuchRow);
    };
    for _time in 0..times {
        items.push(last.copy(alloc)?)?;
    }
    items.push(last)?;
    Ok(Outcome::Good(Sequence::from_vec(items)))
}

// A committed task; what it lists as read is let go.
fn committed(alloc: Global, task: Listed) -> Result<TraceEntry<Body>, Stop> {
    let Listed {
        phase,
        place,
        position,
        outputs,
        reads: _,
    } = task;
    let Ok(phase) = u32::try_from(phase) else {
        return Err(Stop::NoSuchRow);
    };
    Ok(TraceEntry {
        phase,
        place,
        position,
        outcome: outcome(alloc, outputs)?,
    })
}

// A document that a text is.
fn document(alloc: Global, text: &[u8]) -> Result<JobDocument, Stop>
    ensures { IfOk result IsDocument }
{
    documents_are_documents();
    match read(alloc, LOGIN, text) {
        Ok(document) => Ok(document),
        Err(_) => Err(Stop::NoSuchRow),
    }
}

// What stands behind the number in front of a text.
fn behind(text: &str) -> Result<&str, Stop> {
    match text.split_once(' ') {
        Some((_number, rest)) => Ok(rest),
        None => Err(Stop::NoSuchRow),
    }
}

// How much of a certificate was written.
fn put_end(out: &mut String, end: Written, sink: &MemSink) -> Result<(), Stop> {
    let end = match end {
        Written::Whole => "whole",
        Written::SinkFault => "sink fault",
        Written::Memory => "memory",
    };
    write!(out, "{} {} {}", end, sink.written().len(), sink.calls())?;
    Ok(())
}

fn roomy(alloc: Global, room: u64) -> Result<MemSink, Stop> {
    Ok(MemSink::new(alloc, room as usize)?)
}

// A sink with writes of so many bytes at most.
fn narrow(alloc: Global, most: u64) -> Result<MemSink, Stop> {
    match most as usize {
        0 => Err(Stop::NoSuchRow),
        most => Ok(roomy(alloc, SINK_ROOM)?.at_most(most)),
    }
}

// A sink of which the write of this number fails.
fn failing(alloc: Global, number: u64) -> Result<MemSink, Stop> {
    let mut numbers = Vec::new(alloc);
    numbers.push(number)?;
    Ok(roomy(alloc, SINK_ROOM)?.failing(numbers))
}

// A sink as a row has it: with so much room, with writes of so many bytes at most, or of which the write of this number fails.
fn sink(alloc: Global, row: &Row) -> Result<MemSink, Stop> {
    match row.text(1) {
        Ok("room") => roomy(alloc, row.number(2)?),
        Ok("most") => narrow(alloc, row.number(2)?),
        Ok("write") => failing(alloc, row.number(2)?),
        _ => roomy(alloc, SINK_ROOM),
    }
}

impl Jobs {
    ghost use Rattle.std.specs.Prelude.{◌<◌, ◌^◌, IfOk};
    ghost use Rattle.mt_types.specs.WellMade.{IsDocument};

    /// No job.
    pub fn new(alloc: Global) -> Jobs {
        Jobs {
            number: 0,
            document: Vec::new(alloc),
            inputs: Vec::new(alloc),
            trace: Vec::new(alloc),
            written: Vec::new(alloc),
        }
    }

    // Begins a job.
    fn begin(&mut self, alloc: Global, number: u64, text: &[u8]) -> Result<(), Stop> {
        *self = Jobs::new(alloc);
        self.number = number;
        self.document.extend_from_slice(text)?;
        Ok(())
    }

    // Adds what a line lists.
    fn add(&mut self, alloc: Global, text: &[u8]) -> Result<(), Stop> {
        match read_line(alloc, LOGIN, text)? {
            Some(Line::Input(item)) => self.inputs.push(stored(item))?,
            Some(Line::Task(task)) => self.trace.push(committed(alloc, task)?)?,
            _ => return Err(Stop::NoSuchRow),
        }
        Ok(())
    }

    // Gives the last task its last output so many times more.
    fn grow(&mut self, alloc: Global, times: u64) -> Result<(), Stop> {
        let Some(entry) = self.trace.pop() else {
            return Err(Stop::NoSuchRow);
        };
        let TraceEntry {
            phase,
            place,
            position,
            outcome,
        } = entry;
        self.trace.push(TraceEntry {
            phase,
            place,
            position,
            outcome: grown(alloc, outcome, times)?,
        })?;
        Ok(())
    }

    // The job; what it read and made is no longer here.
    fn take(&mut self, alloc: Global) -> Result<Job<Body>, Stop>
        ensures { IfOk result (λ j. (j.number < 2 ^ 62) × IsDocument j.document) }
    {
        if self.number >= 4_611_686_018_427_387_904 {
            return Err(Stop::NoSuchRow);
        }
        let document = document(alloc, &self.document)?;
        Ok(Job {
            number: self.number,
            document,
            assets: Sequence::new(alloc),
            inputs: Sequence::from_vec(std::mem::replace(&mut self.inputs, Vec::new(alloc))),
            missing: Sequence::new(alloc),
            ended: true,
            cancelled: false,
            created: 0,
            done: Some(0),
            trace: Sequence::from_vec(std::mem::replace(&mut self.trace, Vec::new(alloc))),
        })
    }

    // Puts back what a job read and made.
    fn put_back(&mut self, job: Job<Body>) {
        self.inputs = job.inputs.into_vec();
        self.trace = job.trace.into_vec();
    }

    // Whether the certificate of the job is within the limits.
    fn fits(&mut self, alloc: Global) -> Result<bool, Stop> {
        let job = self.take(alloc)?;
        let fits = certificate_fits(alloc, LOGIN, &job)?;
        self.put_back(job);
        Ok(fits)
    }

    fn put_fits(&mut self, alloc: Global, out: &mut String) -> Result<(), Stop> {
        let fits = self.fits(alloc)?;
        Ok(write!(out, "{fits}")?)
    }

    // Writes the certificate of the job to a sink.
    fn write(&mut self, alloc: Global, sink: &mut MemSink) -> Result<Written, Stop> {
        let job = self.take(alloc)?;
        let end = write_certificate(alloc, LOGIN, &job, sink);
        self.put_back(job);
        Ok(end)
    }

    // Writes the certificate of the job.
    fn put_certificate(&mut self, alloc: Global, row: &Row, out: &mut String) -> Result<(), Stop> {
        let mut sink = sink(alloc, row)?;
        let end = self.write(alloc, &mut sink)?;
        self.written = Vec::from_slice(alloc, sink.written())?;
        put_end(out, end, &sink)
    }

    /// What was written.
    pub fn written(&self) -> &[u8] {
        &self.written
    }

    fn job(&mut self, alloc: Global, text: &str, row: &Row, out: &mut String) -> Result<(), Stop> {
        let document = behind(text)?;
        self.begin(alloc, row.number(1)?, document.as_bytes())?;
        Ok(out.push_str("begun")?)
    }

    fn job_bytes(&mut self, alloc: Global, row: &Row, out: &mut String) -> Result<(), Stop> {
        self.begin(alloc, row.number(1)?, row.bytes(2)?)?;
        Ok(out.push_str("begun")?)
    }

    fn list(&mut self, alloc: Global, text: &[u8], out: &mut String) -> Result<(), Stop> {
        self.add(alloc, text)?;
        Ok(out.push_str("listed")?)
    }

    fn list_bytes(&mut self, alloc: Global, row: &Row, out: &mut String) -> Result<(), Stop> {
        self.list(alloc, row.bytes(1)?, out)
    }

    fn list_many(
        &mut self,
        alloc: Global,
        text: &str,
        row: &Row,
        out: &mut String,
    ) -> Result<(), Stop> {
        let line = behind(text)?;
        for _time in 0..row.number(1)? {
            self.add(alloc, line.as_bytes())?;
        }
        Ok(out.push_str("listed")?)
    }

    fn more(&mut self, alloc: Global, row: &Row, out: &mut String) -> Result<(), Stop> {
        self.grow(alloc, row.number(1)?)?;
        Ok(out.push_str("listed")?)
    }

    fn put_written(&self, out: &mut String) -> Result<(), Stop> {
        Ok(put_escaped(out, &self.written)?)
    }

    /// The answer to a row of this crate; behind its first word the line has this text.
    pub fn answer(
        &mut self,
        alloc: Global,
        text: &str,
        row: &Row,
        out: &mut String,
    ) -> Result<(), Stop> {
        match row.text(0)? {
            "job" => self.job(alloc, text, row, out),
            "job-bytes" => self.job_bytes(alloc, row, out),
            "list-bytes" => self.list_bytes(alloc, row, out),
            "list" => self.list(alloc, text.as_bytes(), out),
            "list-many" => self.list_many(alloc, text, row, out),
            "more" => self.more(alloc, row, out),
            "fits" => self.put_fits(alloc, out),
            "certify" => self.put_certificate(alloc, row, out),
            "written" => self.put_written(out),
            _ => Err(Stop::NoSuchRow),
        }
    }
}
