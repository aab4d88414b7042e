//! What lives are sent, and what their children write.
use crate::replies::{body_of, last_told, put_bodies, told_up_to};
use crate::store::{Faults, Files, Left, lived};
use mt_rows::Stop;
use std::alloc::{AllocError, Global};

/// What the last position of a store is asked for with.
const PROBE: &[u8] = b"HEAD /l/stor HTTP/1.1\r\n\r\n";

/// The messages of a job, the words of its children, that of the last life from then on, and the path of its outputs' names.
#[derive(Drop)]
pub struct Story {
    pub messages: Vec<Vec<u8>>,
    pub words: Vec<Vec<u8>>,
    pub out: Vec<u8>,
}

/// Where a story stands between two lives.
#[derive(Drop)]
pub struct Place {
    files: Files,
    /// How many lives there were.
    life: usize,
    /// How many messages are in the history.
    past: usize,
}

impl Place {
    /// Before the first life: a new store.
    pub fn first(alloc: Global) -> Place {
        Place {
            files: Files::new(alloc),
            life: 0,
            past: 0,
        }
    }
}

// What a life said that has ended with 0.
fn said_by(alloc: Global, left: &Left) -> Result<Vec<u8>, Stop> {
    match left.status {
        0 => Ok(Vec::from_slice(alloc, left.sink.written())?),
        _ => Err(Stop::NoSuchRow),
    }
}

// What a session over these files says to these requests, of which nothing fails.
fn asked(alloc: Global, files: &Files, requests: Vec<u8>) -> Result<Vec<u8>, Stop> {
    let left = lived(alloc, files, requests, Vec::new(alloc), Faults::none(alloc))?;
    said_by(alloc, &left)
}

/// The last position of a store.
pub fn found_in(alloc: Global, files: &Files) -> Result<u64, Stop> {
    let said = asked(alloc, files, Vec::from_slice(alloc, PROBE)?)?;
    match last_told(&said) {
        Some(found) => Ok(found),
        None => Err(Stop::NoSuchRow),
    }
}

// Appends a request for what stands at a path.
fn put_get(requests: &mut Vec<u8>, path: &[u8]) -> Result<(), AllocError> {
    requests.extend_from_slice(b"GET ")?;
    requests.extend_from_slice(path)?;
    requests.extend_from_slice(b" HTTP/1.1\r\n\r\n")
}

// The requests for what stands at each of these lines.
fn get_each(alloc: Global, lines: &[u8]) -> Result<Vec<u8>, AllocError> {
    let mut requests = Vec::new(alloc);
    for path in lines.split(|b| *b == b'\n') {
        if !path.is_empty() {
            put_get(&mut requests, path)?;
        }
    }
    Ok(requests)
}

// What a session says of what stands at each of these lines.
fn asked_each(alloc: Global, files: &Files, lines: &[u8]) -> Result<Vec<u8>, Stop> {
    let requests = get_each(alloc, lines)?;
    asked(alloc, files, requests)
}

// Appends the position that these replies tell, and what stands at each line of the last one's body.
fn put_listed(alloc: Global, files: &Files, said: &[u8], out: &mut String) -> Result<(), Stop> {
    let told = last_told(said).unwrap_or(0);
    write!(out, " at {told}:")?;
    let bodies = asked_each(alloc, files, body_of(said))?;
    put_bodies(&bodies, out)
}

impl Story {
    /// No messages, and children that write what they read.
    pub fn new(alloc: Global) -> Story {
        Story {
            messages: Vec::new(alloc),
            words: Vec::new(alloc),
            out: Vec::new(alloc),
        }
    }

    // The messages that are not in the history.
    fn requests(&self, alloc: Global, past: usize) -> Result<Vec<u8>, AllocError> {
        let mut requests = Vec::new(alloc);
        for message in self.messages.get(past..).unwrap_or(&[]) {
            requests.extend_from_slice(message)?;
        }
        Ok(requests)
    }

    // What children of a life write in front.
    fn word(&self, alloc: Global, life: usize) -> Result<Vec<u8>, AllocError> {
        match self.words.get(life) {
            Some(word) => Vec::from_slice(alloc, word),
            None => match self.words.last() {
                Some(word) => Vec::from_slice(alloc, word),
                None => Ok(Vec::new(alloc)),
            },
        }
    }

    /// The next life: it is sent the messages that are not in the history.
    pub fn live(&self, alloc: Global, at: &Place, faults: Faults) -> Result<Left, Stop> {
        let requests = self.requests(alloc, at.past)?;
        let word = self.word(alloc, at.life)?;
        lived(alloc, &at.files, requests, word, faults)
    }

    /// Where the story stands behind a life that left these files, where these are the replies to all its messages.
    pub fn behind(
        &self,
        alloc: Global,
        at: &Place,
        replies: &[u8],
        files: Files,
    ) -> Result<(Place, u64), Stop> {
        let found = found_in(alloc, &files)?;
        let place = Place {
            files,
            life: at.life.saturating_add(1),
            past: at.past.saturating_add(told_up_to(replies, found)),
        };
        Ok((place, found))
    }

    // Appends the last position of a store, and the outputs of the job.
    fn put_outputs(&self, alloc: Global, files: &Files, out: &mut String) -> Result<(), Stop> {
        let names = asked_each(alloc, files, &self.out)?;
        put_listed(alloc, files, &names, out)
    }

    // Appends what a life ended with, and what it left.
    fn put_left(&self, alloc: Global, left: &Left, out: &mut String) -> Result<(), Stop> {
        write!(out, "status {}", left.status)?;
        let files = Files::of(alloc, &left.disk)?;
        self.put_outputs(alloc, &files, out)
    }

    /// Appends what the last life ends with, of which nothing fails, and what it leaves.
    pub fn put_end(&self, alloc: Global, at: &Place, out: &mut String) -> Result<(), Stop> {
        let left = self.live(alloc, at, Faults::none(alloc))?;
        self.put_left(alloc, &left, out)
    }
}
