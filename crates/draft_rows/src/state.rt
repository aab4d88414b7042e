//! The disk that rows speak of, and the steps of a session that is stopped.
use crate::session::{Session, put_bytes};
use mt_disk::{CrashError, FileNo, Pick, Room};
use mt_rows::{Row, Rows, Stop};
use mt_untold::{Untold, picks_of};
use std::alloc::Global;

/// The room of a disk.
const ROOM: Room = Room {
    file: 300_000,
    calls: 64,
    written: 300_000,
};

/// The room of a disk of a session that is stopped.
const SMALL: Room = Room {
    file: 256,
    calls: 64,
    written: 512,
};

/// The files of a disk, a session over it, and the steps of one that is stopped.
#[derive(Drop)]
pub struct Drafts {
    files: [Vec<u8>; 3],
    session: Option<Session>,
    steps: Vec<Row>,
}

fn bytes_at(alloc: Global, row: &Row, place: usize) -> Result<Vec<u8>, Stop> {
    Ok(Vec::from_slice(alloc, row.bytes(place)?)?)
}

// Does each step, up to one at which the disk fails.
fn put_steps(
    alloc: Global,
    session: &mut Session,
    steps: &[Row],
    out: &mut String,
) -> Result<(), Stop> {
    session.put_opened(alloc, out)?;
    for step in steps {
        if session.is_over {
            return Ok(());
        }
        out.push_str(", ")?;
        session.answer(alloc, step, out)?;
    }
    Ok(())
}

// Does each step over a disk, which is handed back.
fn played(alloc: Global, disk: Untold, steps: &[Row], out: &mut String) -> Result<Untold, Stop> {
    let mut session = Session::new(disk);
    put_steps(alloc, &mut session, steps, out)?;
    Ok(session.disk)
}

// How what a crash left is opened, its payloads, and Head.
fn put_standing(alloc: Global, session: &mut Session, out: &mut String) -> Result<(), Stop> {
    out.push_str("; left ")?;
    session.put_opened(alloc, out)?;
    session.put_all(alloc, out)?;
    out.push_str(", head ")?;
    Ok(put_bytes(out, session.disk.file(FileNo::Head))?)
}

fn put_left(alloc: Global, left: Untold, out: &mut String) -> Result<(), Stop> {
    let mut session = Session::new(left);
    put_standing(alloc, &mut session, out)
}

fn put_crashed(alloc: Global, disk: Untold, picks: &[Pick], out: &mut String) -> Result<(), Stop> {
    match disk.crash(alloc, picks) {
        Ok(left) => put_left(alloc, left, out),
        Err(CrashError::NotAnImage) => Ok(out.push_str("; no image")?),
        Err(CrashError::Memory) => Err(Stop::Memory),
    }
}

// A session over a disk, and what a crash leaves of it.
fn put_stop(
    alloc: Global,
    disk: Untold,
    steps: &[Row],
    picks: &[Pick],
    out: &mut String,
) -> Result<(), Stop> {
    let disk = played(alloc, disk, steps, out)?;
    put_crashed(alloc, disk, picks, out)
}

impl Drafts {
    /// No disk yet.
    pub fn new(alloc: Global) -> Drafts {
        Drafts {
            files: [Vec::new(alloc), Vec::new(alloc), Vec::new(alloc)],
            session: None,
            steps: Vec::new(alloc),
        }
    }

    // A new disk of three files. The numbers behind them are of calls that fail.
    fn make(&mut self, alloc: Global, row: &Row) -> Result<(), Stop> {
        self.files = [
            bytes_at(alloc, row, 1)?,
            bytes_at(alloc, row, 2)?,
            bytes_at(alloc, row, 3)?,
        ];
        let failing = row.numbers(alloc, 4)?;
        let disk = Untold::of(alloc, &self.files, ROOM, &failing)?;
        self.session = Some(Session::new(disk));
        Ok(())
    }

    fn add_step(&mut self, alloc: Global, line: &str) -> Result<(), Stop> {
        match line.strip_prefix("step ") {
            Some(step) => {
                self.steps.push(Row::read(alloc, step.as_bytes())?)?;
                Ok(())
            }
            None => Err(Stop::NoSuchRow),
        }
    }

    // A session over a new disk of the same files, whose call of this number fails.
    fn stop(&self, alloc: Global, row: &Row, out: &mut String) -> Result<(), Stop> {
        let picks = picks_of(alloc, row, 2)?;
        let disk = Untold::of(alloc, &self.files, SMALL, &[row.number(1)?])?;
        put_stop(alloc, disk, &self.steps, &picks, out)
    }

    // A row of the session over the disk.
    fn call(&mut self, alloc: Global, row: &Row, out: &mut String) -> Result<(), Stop> {
        let Some(session) = &mut self.session else {
            return Err(Stop::NoSuchRow);
        };
        match row.text(0)? {
            "files" => Ok(session.put_files(out)?),
            "calls" => Ok(write!(out, "{}", session.disk.calls())?),
            _ => session.answer(alloc, row, out),
        }
    }
}

impl Rows for Drafts {
    fn answer(
        &mut self,
        alloc: Global,
        line: &str,
        row: &Row,
        out: &mut String,
    ) -> Result<(), Stop> {
        match row.text(0)? {
            "disk" => self.make(alloc, row),
            "steps" => {
                self.steps.clear();
                Ok(())
            }
            "step" => self.add_step(alloc, line),
            "stop" => self.stop(alloc, row, out),
            _ => self.call(alloc, row, out),
        }
    }
}
