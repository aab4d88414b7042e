//! The files of a store, a drill over them, and what a session reads of them.
ghost use Rattle.std.specs.Prelude.{◌≡◌, ◌<◌, ◌≤◌, [], length};

use mt_disk::{FileNo, MemDisk, Room};
use mt_drill::drill;
use mt_edge::{FixedClock, MemSink, MemSource, NoDoor};
use mt_rows::{Row, Stop, put_lines};
use mt_server::mantad;
use mt_spawn::NoSpawner;
use std::alloc::Global;

/// The room of a drill's disk.
const ROOM: Room = Room {
    file: 1_048_576,
    calls: 32_768,
    written: 1_048_576,
};

/// The room of a sink, in bytes.
const SINK: usize = 65_536;

/// The bytes of a log without a command.
const LEAST_LOG: usize = 9;

/// The words of the session that reads.
const WORDS: [&str; 5] = ["session", "--login", "l", "--store", "s"];

/// The three files of a store, and the calls that fail in the next drill.
#[derive(Drop)]
pub struct Store {
    head: Vec<u8>,
    one: Vec<u8>,
    two: Vec<u8>,
    disk_fails: Vec<u64>,
    writes_fail: Vec<u64>,
}

// What a run left.
#[derive(Drop)]
struct Left {
    status: u8,
    sink: MemSink,
    disk: MemDisk,
}

// A drill of so many objects over the files of a store.
fn drilled(alloc: Global, count: u32, store: &Store) -> Result<Left, Stop>
    requires fit { (store.now.head.items ≡ []) → length store.now.two.items < 9 }
    requires count { count ≤ 10000 }
{
    let Store {
        head,
        one,
        two,
        disk_fails,
        writes_fail,
    } = store;
    let fails = Vec::from_slice(alloc, writes_fail)?;
    let mut sink = MemSink::new(alloc, SINK)?.failing(fails);
    let mut disk = MemDisk::new(alloc, head, one, two, ROOM, disk_fails)?;
    let end = drill(alloc, count, &mut sink, &mut disk, &mut FixedClock::new(0));
    Ok(Left {
        status: end.code(),
        sink,
        disk,
    })
}

// A session over the files of a store.
fn asked(alloc: Global, words: &[String], request: Vec<u8>, store: &Store) -> Result<Left, Stop>
    requires { (store.now.head.items ≡ []) → length store.now.two.items < 9 }
{
    let Store { head, one, two, .. } = store;
    let mut source = MemSource::new(alloc, request);
    let mut sink = MemSink::new(alloc, SINK)?;
    let mut disk = MemDisk::new(alloc, head, one, two, ROOM, &[])?;
    let status = mantad(
        alloc,
        words,
        &mut source,
        &mut sink,
        &mut disk,
        &mut NoSpawner::new(),
        &mut FixedClock::new(0),
        &mut NoDoor::new(),
    );
    Ok(Left { status, sink, disk })
}

// The words of the session that reads.
fn session_words(alloc: Global) -> Result<Vec<String>, Stop> {
    let mut words = Vec::new(alloc);
    for word in WORDS {
        words.push(String::from_str(alloc, word)?)?;
    }
    Ok(words)
}

// The request of a line `ask METHOD TARGET`.
fn request_of(alloc: Global, line: &str) -> Result<Vec<u8>, Stop> {
    let asked = line.strip_prefix("ask ").unwrap_or("");
    let mut request = Vec::from_slice(alloc, asked.as_bytes())?;
    request.extend_from_slice(b" HTTP/1.1\r\n\r\n")?;
    Ok(request)
}

impl Store {
    /// A new store.
    pub fn new(alloc: Global) -> Store {
        Store {
            head: Vec::new(alloc),
            one: Vec::new(alloc),
            two: Vec::new(alloc),
            disk_fails: Vec::new(alloc),
            writes_fail: Vec::new(alloc),
        }
    }

    /// The store is new.
    pub fn forget(&mut self, alloc: Global) -> Result<(), Stop> {
        *self = Store::new(alloc);
        Ok(())
    }

    /// The files are those of a row.
    pub fn read(&mut self, alloc: Global, row: &Row) -> Result<(), Stop> {
        self.head = Vec::from_slice(alloc, row.bytes(1)?)?;
        self.one = Vec::from_slice(alloc, row.bytes(2)?)?;
        self.two = Vec::from_slice(alloc, row.bytes(3)?)?;
        Ok(())
    }

    /// These calls of the next drill fail.
    pub fn set_failing(&mut self, alloc: Global, row: &Row) -> Result<(), Stop> {
        let numbers = row.numbers(alloc, 2)?;
        match row.text(1)? {
            "disk" => self.disk_fails = numbers,
            "writes" => self.writes_fail = numbers,
            _ => return Err(Stop::NoSuchRow),
        }
        Ok(())
    }

    // The files are those of a disk, and no call fails.
    fn keep(&mut self, alloc: Global, disk: &MemDisk) -> Result<(), Stop> {
        self.head = Vec::from_slice(alloc, disk.file(FileNo::Head))?;
        self.one = Vec::from_slice(alloc, disk.file(FileNo::One))?;
        self.two = Vec::from_slice(alloc, disk.file(FileNo::Two))?;
        self.disk_fails.clear();
        self.writes_fail.clear();
        Ok(())
    }

    /// A drill of so many objects: its status, and what it wrote. There is none over a second log without a head.
    pub fn drill(&mut self, alloc: Global, row: &Row, out: &mut String) -> Result<(), Stop> {
        let count = row.number(1)?;
        if count > 10_000 || self.head.is_empty() && self.two.len() >= LEAST_LOG {
            return Err(Stop::NoSuchRow);
        }
        let left = drilled(alloc, count as u32, self)?;
        write!(out, "status {}", left.status)?;
        put_lines(out, left.sink.written())?;
        self.keep(alloc, &left.disk)
    }

    /// What a session answers to the request of a line, and its status.
    pub fn ask(&self, alloc: Global, line: &str, out: &mut String) -> Result<(), Stop> {
        if self.head.is_empty() && self.two.len() >= LEAST_LOG {
            return Err(Stop::NoSuchRow);
        }
        let words = session_words(alloc)?;
        let request = request_of(alloc, line)?;
        let left = asked(alloc, &words, request, self)?;
        write!(out, "status {}", left.status)?;
        put_lines(out, left.sink.written())?;
        Ok(())
    }
}
