//! A life that is stopped in a call of its disk, and what a crash leaves of it.
use crate::replies::last_told;
use crate::store::{Faults, Files, Left};
use crate::story::{Place, Story};
use mt_disk::{CrashError, MemDisk, Pick};
use mt_rows::Stop;
use std::alloc::{AllocError, Global};

/// More than all calls between two syncs.
pub const MOST_PICKS: usize = 12;

/// A life that can be stopped: its story, where that stands, and what the life leaves where it isn't stopped.
#[derive(Drop)]
pub struct Life<'a> {
    pub story: &'a Story,
    pub at: &'a Place,
    pub whole: &'a Left,
}

/// The call of the disk in which a life is stopped, and what a crash leaves of the calls before it, of so many of them at most.
#[derive(Clone, Copy, Debug)]
pub struct Crash {
    pub call: u64,
    pub pick: Pick,
    pub most: usize,
}

/// Appends how a life ended that said this: its status, and the position that was told last.
pub fn put_told(status: u8, said: &[u8], out: &mut String) -> Result<(), AllocError> {
    match last_told(said) {
        Some(told) => write!(out, "status {status}, told {told}"),
        None => write!(out, "status {status}, told none"),
    }
}

// The files of the image that a crash left. Appends how the life ended that said this.
fn put_image(
    alloc: Global,
    status: u8,
    said: &[u8],
    disk: &MemDisk,
    out: &mut String,
) -> Result<Option<Files>, Stop> {
    put_told(status, said, out)?;
    Ok(Some(Files::of(alloc, disk)?))
}

// What a crash by these picks leaves of a life that left this, if it is an image. Appends how the life ended then.
fn put_crashed(
    alloc: Global,
    left: Left,
    picks: &[Pick],
    out: &mut String,
) -> Result<Option<Files>, Stop> {
    let Left {
        status,
        sink,
        disk,
        faults: _,
    } = left;
    match disk.crash(picks) {
        Ok(disk) => put_image(alloc, status, sink.written(), &disk, out),
        Err(CrashError::NotAnImage) => Ok(None),
        Err(CrashError::Memory) => Err(Stop::Memory),
    }
}

impl<'a> Life<'a> {
    // What a crash leaves by these picks, if they leave an image. Appends how the life ended then.
    fn left_by(
        &self,
        alloc: Global,
        call: u64,
        picks: &[Pick],
        out: &mut String,
    ) -> Result<Option<Files>, Stop> {
        let left = self.story.live(alloc, self.at, Faults::at(alloc, call)?)?;
        put_crashed(alloc, left, picks, out)
    }

    // Appends what is found in these files. Gives where the story stands.
    fn put_found(&self, alloc: Global, files: Files, out: &mut String) -> Result<Place, Stop> {
        let said = self.whole.sink.written();
        let (place, found) = self.story.behind(alloc, self.at, said, files)?;
        write!(out, ", found {found}")?;
        Ok(place)
    }

    /// Appends how it ends in a crash that leaves what it may of as many calls as it may, and what is found behind that. Gives where its
    /// story stands then, and how many calls these were.
    pub fn put_crash(
        &self,
        alloc: Global,
        crash: Crash,
        out: &mut String,
    ) -> Result<(Place, usize), Stop> {
        let picks = [crash.pick; MOST_PICKS];
        for fewer in MOST_PICKS.saturating_sub(crash.most)..MOST_PICKS {
            let some = picks.get(fewer..).unwrap_or(&[]);
            if let Some(files) = self.left_by(alloc, crash.call, some, out)? {
                return Ok((self.put_found(alloc, files, out)?, some.len()));
            }
        }
        Err(Stop::NoSuchRow)
    }
}
