//! A log, and the draft of a new one, over a disk.
use mt_disk::{DiskFault, FileNo};
use mt_draft::{Draft, DraftEnd, begin};
use mt_log::{Log, OpenError};
use mt_rows::{Row, Stop, put_escaped};
use mt_untold::Untold;
use std::alloc::{AllocError, Global};

/// Payloads are shorter.
const MOST: u64 = 1 << 32;

/// The most payloads that a row shows.
const MOST_SHOWN: u64 = 64;

/// How long a log may get that is opened.
const LIMIT: u64 = 1 << 32;

/// A disk, the log that was opened over it, and the draft that was begun; and whether the disk has failed since.
#[derive(Drop)]
pub struct Session {
    pub disk: Untold,
    log: Option<Log>,
    draft: Option<Draft>,
    pub is_over: bool,
}

/// Appends bytes as a table shows them, and `\e` for none.
pub fn put_bytes(out: &mut String, bytes: &[u8]) -> Result<(), AllocError> {
    if bytes.is_empty() {
        return out.push_str("\\e");
    }
    put_escaped(out, bytes)
}

// Begins a draft, where the log takes more.
fn begun(
    alloc: Global,
    disk: &mut Untold,
    log: &Log,
    limit: u64,
) -> Result<Result<Draft, DraftEnd>, Stop> {
    if log.is_closed() {
        return Err(Stop::NoSuchRow);
    }
    Ok(begin(alloc, disk, log, limit))
}

// Adds a payload to a draft.
fn added(
    disk: &mut Untold,
    log: &Log,
    draft: &mut Draft,
    payload: &[u8],
) -> Result<Result<u64, DraftEnd>, Stop> {
    if payload.len() as u64 >= MOST {
        return Err(Stop::NoSuchRow);
    }
    Ok(draft.add(disk, log, payload))
}

// The payload at a place of a log that isn't closed.
fn read(alloc: Global, disk: &mut Untold, log: &Log, place: u64) -> Result<Vec<u8>, Stop> {
    if log.is_closed() {
        return Err(Stop::NoSuchRow);
    }
    let mut payload = Vec::new(alloc);
    match log.read(disk, place, &mut payload) {
        Ok(()) => Ok(payload),
        Err(_) => Err(Stop::NoSuchRow),
    }
}

// The payloads from the first on, each behind a blank.
fn put_payloads(alloc: Global, disk: &mut Untold, log: &Log, out: &mut String) -> Result<(), Stop> {
    let mut place = log.first();
    for _ in 0..MOST_SHOWN {
        if place >= log.len() - 1 {
            return Ok(());
        }
        let payload = read(alloc, disk, log, place)?;
        out.push(' ')?;
        put_bytes(out, &payload)?;
        let Some(next) = log.next(place, payload.len() as u64) else {
            return Ok(());
        };
        place = next;
    }
    Ok(())
}

fn put_log(log: &Log, out: &mut String) -> Result<(), AllocError> {
    let version = if log.is_old() { "old" } else { "new" };
    write!(out, "{:?} {version} {}", log.file(), log.len())
}

// Why a log isn't opened; no row shows the digests.
fn put_refusal(out: &mut String, error: OpenError) -> Result<(), Stop> {
    match error {
        OpenError::Memory => Err(Stop::Memory),
        OpenError::Damaged { at, .. } => Ok(write!(out, "Damaged at {at}")?),
        error => Ok(write!(out, "{error:?}")?),
    }
}

impl Session {
    /// Nothing is opened yet.
    pub fn new(disk: Untold) -> Session {
        Session {
            disk,
            log: None,
            draft: None,
            is_over: false,
        }
    }

    /// Answers a row of a log and its draft.
    pub fn answer(&mut self, alloc: Global, row: &Row, out: &mut String) -> Result<(), Stop> {
        match row.text(0)? {
            "open" => self.put_opened(alloc, out),
            "payloads" => self.put_all(alloc, out),
            "begin" => self.put_begun(alloc, row.number(1)?, out),
            "add" => self.put_added(row.bytes(1)?, out),
            "copy" => self.put_copied(row.number(1)?, row.number(2)?, out),
            "finish" => self.put_finished(out),
            "abandon" => self.put_abandoned(out),
            _ => Err(Stop::NoSuchRow),
        }
    }

    /// Opens the log, of either version, and shows its file, its version and its length.
    pub fn put_opened(&mut self, alloc: Global, out: &mut String) -> Result<(), Stop> {
        self.draft = None;
        match Log::open_any(alloc, &mut self.disk, LIMIT) {
            Ok(log) => {
                let shown = put_log(&log, out);
                self.log = Some(log);
                Ok(shown?)
            }
            Err(error) => {
                self.is_over = true;
                put_refusal(out, error)
            }
        }
    }

    /// The payloads of the log that was opened, behind a colon; nothing where it was refused.
    pub fn put_all(&mut self, alloc: Global, out: &mut String) -> Result<(), Stop> {
        match &self.log {
            Some(log) => {
                out.push(':')?;
                put_payloads(alloc, &mut self.disk, log, out)
            }
            None => Ok(()),
        }
    }

    fn put_begun(&mut self, alloc: Global, limit: u64, out: &mut String) -> Result<(), Stop> {
        let Some(log) = &self.log else {
            return Err(Stop::NoSuchRow);
        };
        match begun(alloc, &mut self.disk, log, limit)? {
            Ok(draft) => {
                let next = draft.next();
                self.draft = Some(draft);
                Ok(write!(out, "Ok({next})")?)
            }
            Err(end) => self.put_end(end, out),
        }
    }

    fn put_added(&mut self, payload: &[u8], out: &mut String) -> Result<(), Stop> {
        let (Some(log), Some(draft)) = (&self.log, &mut self.draft) else {
            return Err(Stop::NoSuchRow);
        };
        let done = added(&mut self.disk, log, draft, payload)?;
        self.put_place(done, out)
    }

    fn put_copied(&mut self, from: u64, size: u64, out: &mut String) -> Result<(), Stop> {
        let (Some(log), Some(draft)) = (&self.log, &mut self.draft) else {
            return Err(Stop::NoSuchRow);
        };
        let done = draft.copy(&mut self.disk, log, from, size);
        self.put_place(done, out)
    }

    fn put_place(&mut self, done: Result<u64, DraftEnd>, out: &mut String) -> Result<(), Stop> {
        match done {
            Ok(place) => Ok(write!(out, "Ok({place})")?),
            Err(DraftEnd::Disk) => {
                out.push_str("Err(Disk), abandoned ")?;
                self.is_over = true;
                self.put_abandoned(out)
            }
            Err(end) => self.put_end(end, out),
        }
    }

    fn put_end(&mut self, end: DraftEnd, out: &mut String) -> Result<(), Stop> {
        match end {
            DraftEnd::Full => {}
            DraftEnd::Disk => self.is_over = true,
            DraftEnd::Memory => return Err(Stop::Memory),
        }
        Ok(write!(out, "Err({end:?})")?)
    }

    // Gives the draft up.
    fn put_abandoned(&mut self, out: &mut String) -> Result<(), Stop> {
        let Some(draft) = self.draft.take() else {
            return Err(Stop::NoSuchRow);
        };
        let Some(log) = &self.log else {
            return Err(Stop::NoSuchRow);
        };
        match draft.abandon(&mut self.disk, log) {
            Ok(()) => Ok(out.push_str("Ok")?),
            Err(DiskFault) => {
                self.is_over = true;
                Ok(out.push_str("Err(DiskFault)")?)
            }
        }
    }

    fn put_finished(&mut self, out: &mut String) -> Result<(), Stop> {
        let Some(draft) = self.draft.take() else {
            return Err(Stop::NoSuchRow);
        };
        let Some(log) = self.log.take() else {
            return Err(Stop::NoSuchRow);
        };
        match draft.finish(&mut self.disk, log) {
            Ok(size) => Ok(write!(out, "Ok({size})")?),
            Err(DiskFault) => {
                self.is_over = true;
                Ok(out.push_str("Err(DiskFault)")?)
            }
        }
    }

    /// What the three files hold.
    pub fn put_files(&self, out: &mut String) -> Result<(), AllocError> {
        out.push_str("head ")?;
        put_bytes(out, self.disk.file(FileNo::Head))?;
        out.push_str(", one ")?;
        put_bytes(out, self.disk.file(FileNo::One))?;
        out.push_str(", two ")?;
        put_bytes(out, self.disk.file(FileNo::Two))
    }
}
