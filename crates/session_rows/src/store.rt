//! The files of a store, what is read from and written to, and one run over them.
ghost use Rattle.std.specs.Prelude.{◌≡◌, ◌<◌, ◌+◌, [], length};

use crate::children::{Counts, Echo, copied, extend_script};
use crate::links::Links;
use mt_disk::{FileNo, MemDisk, Room};
use mt_edge::{Door, LAST_MOMENT, MemClock, MemDoor, MemSink, MemSource};
use mt_rows::{Row, Stop, put_line, put_lines};
use mt_server::mantad;
use mt_spawn::{MemSpawner, Script};
use std::alloc::{AllocError, Global};

/// The room of a session's disk.
const ROOM: Room = Room {
    file: 131_072,
    calls: 1_024,
    written: 131_072,
};

/// The room of a sink, in bytes.
const SINK: usize = 131_072;

/// The bytes of a log without a command.
const LEAST_LOG: usize = 9;

/// The three files of a store.
#[derive(Drop)]
pub struct Files {
    head: Vec<u8>,
    one: Vec<u8>,
    two: Vec<u8>,
}

impl Files {
    /// Those of a new store.
    pub fn new(alloc: Global) -> Files {
        Files {
            head: Vec::new(alloc),
            one: Vec::new(alloc),
            two: Vec::new(alloc),
        }
    }

    /// Those that a row names behind its call.
    pub fn read(alloc: Global, row: &Row) -> Result<Files, Stop> {
        let head = row.bytes(1)?;
        let one = row.bytes(2)?;
        let two = row.bytes(3)?;
        Ok(Files::holding(alloc, head, one, two)?)
    }

    /// Those of a disk.
    pub fn of(alloc: Global, disk: &MemDisk) -> Result<Files, AllocError> {
        let head = disk.file(FileNo::Head);
        let one = disk.file(FileNo::One);
        let two = disk.file(FileNo::Two);
        Files::holding(alloc, head, one, two)
    }

    // Files of these bytes.
    fn holding(alloc: Global, head: &[u8], one: &[u8], two: &[u8]) -> Result<Files, AllocError> {
        let mut files = Files::new(alloc);
        files.extend(head, one, two)?;
        Ok(files)
    }

    // Appends these bytes to them.
    fn extend(&mut self, head: &[u8], one: &[u8], two: &[u8]) -> Result<(), AllocError> {
        self.head.extend_from_slice(head)?;
        self.one.extend_from_slice(one)?;
        self.two.extend_from_slice(two)
    }

    /// A line for each file.
    pub fn put(&self, out: &mut String) -> Result<(), AllocError> {
        put_line(out, "head", &self.head)?;
        put_line(out, "one", &self.one)?;
        put_line(out, "two", &self.two)
    }
}

/// What is read, how reads and writes fail, counted from 0, the moments of the clock, one a call, and what becomes of children.
#[derive(Drop)]
pub struct Ends {
    pub requests: Vec<u8>,
    pub reads_fail: Vec<u64>,
    pub writes_fail: Vec<u64>,
    pub moments: Vec<u64>,
    pub script: Script,
}

impl Ends {
    /// Nothing is read, nothing fails, it is always 1970, and each child ends at the first wait.
    pub fn new(alloc: Global) -> Ends {
        Ends {
            requests: Vec::new(alloc),
            reads_fail: Vec::new(alloc),
            writes_fail: Vec::new(alloc),
            moments: Vec::new(alloc),
            script: Script::new(alloc),
        }
    }

    /// The same once more.
    pub fn copy(&self, alloc: Global) -> Result<Ends, AllocError> {
        let mut copy = Ends::new(alloc);
        copy.extend(self)?;
        Ok(copy)
    }

    // Appends others to them, list by list.
    fn extend(&mut self, from: &Ends) -> Result<(), AllocError> {
        self.requests.extend_from_slice(&from.requests)?;
        self.reads_fail.extend_from_slice(&from.reads_fail)?;
        self.writes_fail.extend_from_slice(&from.writes_fail)?;
        self.moments.extend_from_slice(&from.moments)?;
        extend_script(&mut self.script, &from.script)
    }

    /// The clock of these moments, which gives the last of them from then on; with none, 0.
    pub fn clock(&self, alloc: Global) -> Result<MemClock, Stop> {
        let mut listed = Vec::new(alloc);
        let mut later = 0;
        for moment in &self.moments {
            if *moment > LAST_MOMENT {
                return Err(Stop::NoSuchRow);
            }
            later = *moment;
            listed.push(later)?;
        }
        Ok(MemClock::new(listed, later))
    }

    /// The source of these bytes.
    pub fn source(&self, alloc: Global) -> Result<MemSource, AllocError> {
        let source = MemSource::new(alloc, Vec::from_slice(alloc, &self.requests)?);
        Ok(source.failing(Vec::from_slice(alloc, &self.reads_fail)?))
    }

    /// An empty sink.
    pub fn sink(&self, alloc: Global) -> Result<MemSink, AllocError> {
        let sink = MemSink::new(alloc, SINK)?;
        Ok(sink.failing(Vec::from_slice(alloc, &self.writes_fail)?))
    }
}

// What is read from and written to, and the clock.
#[derive(Drop)]
struct Streams {
    source: MemSource,
    sink: MemSink,
    clock: MemClock,
}

impl Ends {
    // The streams and the clock of a run.
    fn streams(&self, alloc: Global) -> Result<Streams, Stop> {
        let clock = self.clock(alloc)?;
        let source = self.source(alloc)?;
        let sink = self.sink(alloc)?;
        Ok(Streams {
            source,
            sink,
            clock,
        })
    }
}

/// What a run left.
#[derive(Drop)]
pub struct Left {
    pub status: u8,
    pub sink: MemSink,
    pub disk: MemDisk,
    /// What was written to each link that was given back.
    pub said: Vec<Vec<u8>>,
    /// What was counted of children.
    pub counts: Counts,
}

impl Left {
    /// The status, what was written, and the lines of each link that was given back.
    pub fn put(&self, out: &mut String) -> Result<(), AllocError> {
        write!(out, "status {}", self.status)?;
        put_lines(out, self.sink.written())?;
        self.put_links(out)
    }

    // The lines of each link that was given back, behind its number.
    fn put_links(&self, out: &mut String) -> Result<(), AllocError> {
        let mut number = 0u64;
        for said in &self.said {
            number = number.saturating_add(1);
            write!(out, "\n    link {number}")?;
            put_lines(out, said)?;
        }
        Ok(())
    }
}

// What was written to each link that was given back, in order.
fn said_to(alloc: Global, door: &MemDoor) -> Result<Vec<Vec<u8>>, AllocError> {
    let mut said = Vec::new(alloc);
    for link in door.given_back() {
        said.push(Vec::from_slice(alloc, link.sink.written())?)?;
    }
    Ok(said)
}

// A run over a door, but for what was written to its links.
fn run_at<W: Door>(
    alloc: Global,
    words: &[String],
    files: &Files,
    ends: &Ends,
    disk_fails: &[u64],
    door: &mut W,
) -> Result<Left, Stop>
    requires fit { (files.now.head.items ≡ []) → length files.now.two.items < 9 }
    requires door { W.over door.old + W.kept door.old ≡ W.taken door.old }
    requires none_kept { W.kept door.old ≡ 0 }
{
    let Files { head, one, two } = files;
    let mut streams = ends.streams(alloc)?;
    let mut spawner = MemSpawner::new(alloc, Echo, copied(alloc, &ends.script)?);
    let mut disk = MemDisk::new(alloc, head, one, two, ROOM, disk_fails)?;
    let status = mantad(
        alloc,
        words,
        &mut streams.source,
        &mut streams.sink,
        &mut disk,
        &mut spawner,
        &mut streams.clock,
        door,
    );
    Ok(Left {
        status,
        sink: streams.sink,
        disk,
        said: Vec::new(alloc),
        counts: Counts::of(&spawner),
    })
}

// A run whose door tells its links.
fn run_told(
    alloc: Global,
    words: &[String],
    files: &Files,
    ends: &Ends,
    links: &Links,
    disk_fails: &[u64],
) -> Result<Left, Stop>
    requires { (files.now.head.items ≡ []) → length files.now.two.items < 9 }
{
    let mut door = links.told(alloc)?;
    let mut left = run_at(alloc, words, files, ends, disk_fails, &mut door)?;
    left.said = said_to(alloc, &door)?;
    Ok(left)
}

// A run whose door tells nothing.
fn run_untold(
    alloc: Global,
    words: &[String],
    files: &Files,
    ends: &Ends,
    links: &Links,
    disk_fails: &[u64],
) -> Result<Left, Stop>
    requires { (files.now.head.items ≡ []) → length files.now.two.items < 9 }
{
    let mut door = links.turns(alloc)?;
    let mut left = run_at(alloc, words, files, ends, disk_fails, &mut door)?;
    left.said = door.said(alloc)?;
    Ok(left)
}

/// A run by these words over a disk that holds these files. There is none over a second log without a head.
pub fn run_over(
    alloc: Global,
    words: &[String],
    files: &Files,
    ends: &Ends,
    links: &Links,
    disk_fails: &[u64],
) -> Result<Left, Stop> {
    if files.head.is_empty() && files.two.len() >= LEAST_LOG {
        return Err(Stop::NoSuchRow);
    }
    if links.have_order() {
        return run_untold(alloc, words, files, ends, links, disk_fails);
    }
    run_told(alloc, words, files, ends, links, disk_fails)
}
