//! The store and the request that rows speak of.
use crate::asking::{Form, put_answer};
use mt_disk::Room;
use mt_edge::MemSource;
use mt_engine::Engine;
use mt_rows::{Row, Rows, Stop, unescaped};
use mt_untold::Untold;
use std::alloc::{AllocError, Global};

/// The room of the disk.
const ROOM: Room = Room {
    file: 1_000_000,
    calls: 4_096,
    written: 1_000_000,
};

/// A store over a disk in memory, the moment of the next requests, and the next request with the reads of it that fail.
#[derive(Drop)]
pub struct Store {
    disk: Option<Untold>,
    engine: Option<Engine>,
    moment: u64,
    request: Vec<u8>,
    reads_fail: Vec<u64>,
}

impl Store {
    /// No store yet.
    pub fn new(alloc: Global) -> Store {
        Store {
            disk: None,
            engine: None,
            moment: 0,
            request: Vec::new(alloc),
            reads_fail: Vec::new(alloc),
        }
    }

    // A new store under a limit.
    fn begin(&mut self, alloc: Global, row: &Row, out: &mut String) -> Result<(), Stop> {
        let limit = row.number(1)?;
        let disk = Untold::new(alloc, ROOM)?;
        set(&mut self.disk, Some(disk));
        self.moment = 0;
        self.open_new(alloc, limit, out)
    }

    // The engine of a new disk, whose calls are counted from then on.
    fn open_new(&mut self, alloc: Global, limit: u64, out: &mut String) -> Result<(), Stop> {
        let Some(disk) = &mut self.disk else {
            return Err(Stop::NoSuchRow);
        };
        let engine = opened(alloc, disk, limit, out)?;
        disk.fail(Vec::new(alloc));
        set(&mut self.engine, engine);
        Ok(())
    }

    // The store opened again under a limit, as its disk now stands.
    fn open(&mut self, alloc: Global, row: &Row, out: &mut String) -> Result<(), Stop> {
        let limit = row.number(1)?;
        let Some(disk) = &mut self.disk else {
            return Err(Stop::NoSuchRow);
        };
        disk.fail(Vec::new(alloc));
        let engine = opened(alloc, disk, limit, out)?;
        set(&mut self.engine, engine);
        self.put_position(out)
    }

    // How many commands the store has, if it was opened.
    fn put_position(&self, out: &mut String) -> Result<(), Stop> {
        match &self.engine {
            Some(engine) => Ok(write!(out, ", position {}", engine.position())?),
            None => Ok(()),
        }
    }

    // `moment NUMBER`
    fn set_moment(&mut self, row: &Row) -> Result<(), Stop> {
        self.moment = row.number(1)?;
        Ok(())
    }

    // `fail disk NUMBER ..`: calls of the disk from now on.
    fn fail_disk(&mut self, alloc: Global, row: &Row) -> Result<(), Stop> {
        let numbers = row.numbers(alloc, 2)?;
        match &mut self.disk {
            Some(disk) => {
                disk.fail(numbers);
                Ok(())
            }
            None => Err(Stop::NoSuchRow),
        }
    }

    // `fail reads NUMBER ..`: reads of the next request.
    fn fail_reads(&mut self, alloc: Global, row: &Row) -> Result<(), Stop> {
        self.reads_fail = row.numbers(alloc, 2)?;
        Ok(())
    }

    fn fail(&mut self, alloc: Global, row: &Row) -> Result<(), Stop> {
        match row.text(1)? {
            "disk" => self.fail_disk(alloc, row),
            "reads" => self.fail_reads(alloc, row),
            _ => Err(Stop::NoSuchRow),
        }
    }

    // A line of the request, with its CR LF; other bytes without.
    fn add(&mut self, alloc: Global, line: &str) -> Result<(), Stop> {
        if let Some(bytes) = line.strip_prefix(">| ") {
            return add_bytes(alloc, &mut self.request, bytes);
        }
        let text = line.strip_prefix("> ").unwrap_or("");
        add_bytes(alloc, &mut self.request, text)?;
        Ok(self.request.extend_from_slice(b"\r\n")?)
    }

    // `try METHOD TARGET BODY FIELD ..`: the request in one row, its Content-Length from its body.
    fn try_one(&mut self, alloc: Global, row: &Row, out: &mut String) -> Result<(), Stop> {
        self.request.clear();
        put_request(alloc, &mut self.request, row)?;
        self.ask(alloc, Form::Short, out)
    }

    // `post TARGET NUMBER LINE`: a request that posts so many times one line, with its LF.
    fn post(&mut self, alloc: Global, row: &Row, out: &mut String) -> Result<(), Stop> {
        self.request.clear();
        put_post(alloc, &mut self.request, row)?;
        self.ask(alloc, Form::Short, out)
    }

    // The source of the request that is there.
    fn source(&self, alloc: Global) -> Result<MemSource, AllocError> {
        let source = MemSource::new(alloc, Vec::from_slice(alloc, &self.request)?);
        Ok(source.failing(Vec::from_slice(alloc, &self.reads_fail)?))
    }

    // Asks the request that is there, which goes.
    fn ask(&mut self, alloc: Global, form: Form, out: &mut String) -> Result<(), Stop> {
        let mut source = self.source(alloc)?;
        self.request.clear();
        self.reads_fail.clear();
        match (&mut self.disk, &mut self.engine) {
            (Some(disk), Some(engine)) => {
                put_answer(alloc, disk, engine, &mut source, self.moment, form, out)
            }
            _ => Err(Stop::NoSuchRow),
        }
    }

    fn put_calls(&self, out: &mut String) -> Result<(), Stop> {
        match &self.disk {
            Some(disk) => Ok(write!(out, "{}", disk.made())?),
            None => Err(Stop::NoSuchRow),
        }
    }
}

// Puts something in the place of what was there.
fn set<T: Drop>(place: &mut Option<T>, new: Option<T>) {
    *place = new;
}

// The engine of a disk under a limit, and the length of its log; or why there is none.
fn opened(
    alloc: Global,
    disk: &mut Untold,
    limit: u64,
    out: &mut String,
) -> Result<Option<Engine>, Stop> {
    match Engine::open(alloc, disk, limit) {
        Ok(engine) => {
            write!(out, "log {}", engine.used())?;
            Ok(Some(engine))
        }
        Err(end) => {
            write!(out, "{end:?}")?;
            Ok(None)
        }
    }
}

// Adds the bytes that a text stands for.
fn add_bytes(alloc: Global, request: &mut Vec<u8>, text: &str) -> Result<(), Stop> {
    let bytes = unescaped(alloc, text.as_bytes())?;
    Ok(request.extend_from_slice(&bytes)?)
}

// The first line of a request.
fn put_start(request: &mut Vec<u8>, method: &[u8], target: &[u8]) -> Result<(), AllocError> {
    request.extend_from_slice(method)?;
    request.extend_from_slice(b" ")?;
    request.extend_from_slice(target)?;
    request.extend_from_slice(b" HTTP/1.1\r\n")
}

// The fields of a row.
fn put_fields(request: &mut Vec<u8>, row: &Row) -> Result<(), Stop> {
    for place in 4..row.len() {
        request.extend_from_slice(row.bytes(place)?)?;
        request.extend_from_slice(b"\r\n")?;
    }
    Ok(())
}

// Ends a head with the length of its body, which stands behind it.
fn put_body(alloc: Global, request: &mut Vec<u8>, body: &[u8]) -> Result<(), AllocError> {
    let length = format!(in alloc; "Content-Length: {}\r\n\r\n", body.len())?;
    request.extend_from_slice(length.as_bytes())?;
    request.extend_from_slice(body)
}

fn put_request(alloc: Global, request: &mut Vec<u8>, row: &Row) -> Result<(), Stop> {
    put_start(request, row.bytes(1)?, row.bytes(2)?)?;
    put_fields(request, row)?;
    Ok(put_body(alloc, request, row.bytes(3)?)?)
}

// So many times one line.
fn repeated(alloc: Global, line: &[u8], count: u64) -> Result<Vec<u8>, AllocError> {
    let mut lines = Vec::new(alloc);
    for _ in 0..count {
        lines.extend_from_slice(line)?;
        lines.push(b'\n')?;
    }
    Ok(lines)
}

fn put_post(alloc: Global, request: &mut Vec<u8>, row: &Row) -> Result<(), Stop> {
    let count = row.number(2)?;
    put_start(request, b"POST", row.bytes(1)?)?;
    let lines = repeated(alloc, row.bytes(3)?, count)?;
    Ok(put_body(alloc, request, &lines)?)
}

impl Rows for Store {
    fn answer(
        &mut self,
        alloc: Global,
        line: &str,
        row: &Row,
        out: &mut String,
    ) -> Result<(), Stop> {
        match row.text(0)? {
            "store" => self.begin(alloc, row, out),
            "open" => self.open(alloc, row, out),
            "moment" => self.set_moment(row),
            "fail" => self.fail(alloc, row),
            ">" | ">|" => self.add(alloc, line),
            "ask" => self.ask(alloc, Form::Whole, out),
            "try" => self.try_one(alloc, row, out),
            "post" => self.post(alloc, row, out),
            "calls" => self.put_calls(out),
            _ => Err(Stop::NoSuchRow),
        }
    }
}
