//! The files of a store, and one life over them.
use crate::children::Says;
use mt_disk::{FileNo, MemDisk, Room};
use mt_edge::{FixedClock, MemSink, MemSource, NoDoor};
use mt_rows::Stop;
use mt_server::mantad;
use mt_spawn::{MemSpawner, Script};
use std::alloc::{AllocError, Global};

/// The words of each life.
const SESSION: [&str; 7] = ["session", "--login", "l", "--store", "s", "--at", "0"];

/// The room of a life's disk.
const ROOM: Room = Room {
    file: 16_384,
    calls: 256,
    written: 16_384,
};

/// The room of a sink, in bytes.
const SINK: usize = 16_384;

/// The files of a store that has no second log.
#[derive(Drop)]
pub struct Files {
    head: Vec<u8>,
    one: Vec<u8>,
}

impl Files {
    /// Those of a new store.
    pub fn new(alloc: Global) -> Files {
        Files {
            head: Vec::new(alloc),
            one: Vec::new(alloc),
        }
    }

    /// Those of a disk.
    pub fn of(alloc: Global, disk: &MemDisk) -> Result<Files, AllocError> {
        Ok(Files {
            head: Vec::from_slice(alloc, disk.file(FileNo::Head))?,
            one: Vec::from_slice(alloc, disk.file(FileNo::One))?,
        })
    }
}

/// What fails in a life: starts, waits and reads of children, and calls of the disk, counted from 0.
#[derive(Drop)]
pub struct Faults {
    pub script: Script,
    pub disk: Vec<u64>,
}

impl Faults {
    /// Nothing fails.
    pub fn none(alloc: Global) -> Faults {
        Faults {
            script: Script::new(alloc),
            disk: Vec::new(alloc),
        }
    }

    /// This call of the disk fails.
    pub fn at(alloc: Global, call: u64) -> Result<Faults, AllocError> {
        Ok(Faults {
            script: Script::new(alloc),
            disk: Vec::from_slice(alloc, &[call])?,
        })
    }
}

/// What a life left.
#[derive(Drop)]
pub struct Left {
    pub status: u8,
    pub sink: MemSink,
    pub disk: MemDisk,
    /// How many calls of its children failed.
    pub faults: u64,
}

fn words_of(alloc: Global) -> Result<Vec<String>, AllocError> {
    let mut words = Vec::new(alloc);
    for word in SESSION {
        words.push(String::from_str(alloc, word)?)?;
    }
    Ok(words)
}

// A life by these words, between a source and a sink, over a disk that holds these files.
fn played(
    alloc: Global,
    words: &[String],
    files: &Files,
    mut source: MemSource,
    mut sink: MemSink,
    says: Says,
    faults: Faults,
) -> Result<Left, Stop> {
    let Faults {
        script,
        disk: fails,
    } = faults;
    let mut disk = MemDisk::new(alloc, &files.head, &files.one, b"", ROOM, &fails)?;
    let mut spawner = MemSpawner::new(alloc, says, script);
    let status = mantad(
        alloc,
        words,
        &mut source,
        &mut sink,
        &mut disk,
        &mut spawner,
        &mut FixedClock::new(0),
        &mut NoDoor::new(),
    );
    Ok(Left {
        status,
        sink,
        disk,
        faults: spawner.faults(),
    })
}

/// A life over a disk that holds these files, which is sent these requests, and whose children write this word.
pub fn lived(
    alloc: Global,
    files: &Files,
    requests: Vec<u8>,
    word: Vec<u8>,
    faults: Faults,
) -> Result<Left, Stop> {
    let words = words_of(alloc)?;
    let sink = MemSink::new(alloc, SINK)?;
    let source = MemSource::new(alloc, requests);
    played(alloc, &words, files, source, sink, Says { word }, faults)
}
