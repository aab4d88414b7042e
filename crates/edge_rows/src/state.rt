//! The source and the sink that rows speak of.
use crate::doors::Served;
use crate::outside;
use crate::streams::{answer_link, answer_sink, answer_source, put_bytes};
use mt_edge::{Joined, MemLink, MemSink, MemSource, NeverFails};
use mt_rows::{Row, Rows, Stop};
use std::alloc::Global;
use std::mem;

/// How the source and the sink are called.
#[derive(Clone, Copy)]
enum Form {
    /// Each by itself.
    Apart,
    /// As a link in memory.
    Link,
    /// Lent, as one link.
    Joined,
    /// The same, and the source never fails.
    NeverFails,
}

/// A source, a sink and how they are called; links that will wait at a door, and a door.
#[derive(Drop)]
pub struct Edges {
    source: Option<MemSource>,
    sink: Option<MemSink>,
    form: Form,
    links: Vec<MemLink>,
    door: Option<Served>,
}

// Bytes, the most that a read takes or 0, and the reads that fail.
fn source_of(alloc: Global, row: &Row) -> Result<MemSource, Stop> {
    let bytes = Vec::from_slice(alloc, row.bytes(1)?)?;
    let source = MemSource::new(alloc, bytes).failing(row.numbers(alloc, 3)?);
    let most = row.number(2)? as usize;
    if most > 0 {
        return Ok(source.at_most(most));
    }
    Ok(source)
}

// A room, the most that a write takes or 0, and the writes that fail.
fn sink_of(alloc: Global, row: &Row) -> Result<MemSink, Stop> {
    let room = row.number(1)? as usize;
    let sink = MemSink::new(alloc, room)?.failing(row.numbers(alloc, 3)?);
    let most = row.number(2)? as usize;
    if most > 0 {
        return Ok(sink.at_most(most));
    }
    Ok(sink)
}

fn form_of(name: &[u8]) -> Result<Form, Stop> {
    match name {
        b"apart" => Ok(Form::Apart),
        b"link" => Ok(Form::Link),
        b"joined" => Ok(Form::Joined),
        b"never-fails" => Ok(Form::NeverFails),
        _ => Err(Stop::NoSuchRow),
    }
}

impl Edges {
    /// Neither a source nor a sink yet.
    pub fn new(alloc: Global) -> Edges {
        Edges {
            source: None,
            sink: None,
            form: Form::Apart,
            links: Vec::new(alloc),
            door: None,
        }
    }

    // The source and the sink as a link, which is to be put back.
    fn take_link(&mut self) -> Result<MemLink, Stop> {
        match (self.source.take(), self.sink.take()) {
            (Some(source), Some(sink)) => Ok(MemLink { source, sink }),
            _ => Err(Stop::NoSuchRow),
        }
    }

    // A read or a write of the source and the sink in their form.
    fn call(&mut self, alloc: Global, row: &Row, out: &mut String) -> Result<bool, Stop> {
        let mut link = self.take_link()?;
        let form = self.form;
        let answered = match form {
            Form::Apart => {
                answer_source(alloc, &mut link.source, row, out)?
                    || answer_sink(&mut link.sink, row, out)?
            }
            Form::Link => answer_link(alloc, &mut link, row, out)?,
            Form::Joined => {
                let MemLink { source, sink } = &mut link;
                answer_link(alloc, &mut Joined { source, sink }, row, out)?
            }
            Form::NeverFails => return self.call_never_failing(alloc, link, row, out),
        };
        self.source = Some(link.source);
        self.sink = Some(link.sink);
        Ok(answered)
    }

    fn call_never_failing(
        &mut self,
        alloc: Global,
        link: MemLink,
        row: &Row,
        out: &mut String,
    ) -> Result<bool, Stop> {
        let MemLink { source, mut sink } = link;
        let mut source = NeverFails { inner: source };
        let mut joined = Joined {
            source: &mut source,
            sink: &mut sink,
        };
        let answered = answer_link(alloc, &mut joined, row, out)?;
        self.source = Some(source.inner);
        self.sink = Some(sink);
        Ok(answered)
    }

    // What is left of the source, what the sink got, and their counts.
    fn put_streams(&self, out: &mut String) -> Result<(), Stop> {
        if let Some(source) = &self.source {
            out.push_str("left ")?;
            put_bytes(out, source.left())?;
            write!(
                out,
                ", reads {}, failed {}",
                source.calls(),
                source.faults()
            )?;
        }
        if let Some(sink) = &self.sink {
            out.push_str("; written ")?;
            put_bytes(out, sink.written())?;
            write!(out, ", writes {}, failed {}", sink.calls(), sink.faults())?;
        }
        Ok(())
    }

    // A row of the door.
    fn at_door(&mut self, alloc: Global, row: &Row, out: &mut String) -> Result<bool, Stop> {
        match (row.call(), &mut self.door) {
            (b"bring", _) => {
                let link = self.take_link()?;
                self.links.push(link)?;
            }
            (b"door", _) => {
                let links = mem::replace(&mut self.links, Vec::new(alloc));
                self.door = Some(Served::new(alloc, links, row.numbers(alloc, 1)?)?);
            }
            (b"visit", Some(door)) => door.visit(out)?,
            (b"back", Some(door)) => door.put_back(out)?,
            _ => return Ok(false),
        }
        Ok(true)
    }
}

impl Rows for Edges {
    fn answer(
        &mut self,
        alloc: Global,
        _line: &str,
        row: &Row,
        out: &mut String,
    ) -> Result<(), Stop> {
        match row.call() {
            b"source" => self.source = Some(source_of(alloc, row)?),
            b"sink" => self.sink = Some(sink_of(alloc, row)?),
            b"as" => self.form = form_of(row.bytes(1)?)?,
            b"streams" => self.put_streams(out)?,
            _ => {
                if outside::answer(alloc, row, out)? || self.at_door(alloc, row, out)? {
                    return Ok(());
                }
                if !self.call(alloc, row, out)? {
                    return Err(Stop::NoSuchRow);
                }
            }
        }
        Ok(())
    }
}
