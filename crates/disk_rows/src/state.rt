//! The disk and the log that rows speak of.
use crate::disks::{self, put_bytes};
use crate::logs::put_refusal;
use crate::stops::{crashed, put_stop};
use mt_disk::{FileNo, Room};
use mt_log::{Log, OpenError};
use mt_rows::{Row, Rows, Stop};
use mt_untold::{Untold, picks_of};
use std::alloc::{AllocError, Global};

/// The room of a disk where no row names one.
const ROOM: Room = Room {
    file: 256,
    calls: 64,
    written: 512,
};

/// A disk, the files that it was made of and the log that was opened over it; and the steps of a session that is
/// stopped.
#[derive(Drop)]
pub struct Disks {
    files: [Vec<u8>; 3],
    room: Room,
    disk: Option<Untold>,
    log: Option<Log>,
    steps: Vec<Row>,
}

impl Disks {
    /// No disk yet.
    pub fn new(alloc: Global) -> Disks {
        Disks {
            files: [Vec::new(alloc), Vec::new(alloc), Vec::new(alloc)],
            room: ROOM,
            disk: None,
            log: None,
            steps: Vec::new(alloc),
        }
    }

    fn set_room(&mut self, row: &Row) -> Result<(), Stop> {
        self.room = Room {
            file: row.number(1)? as usize,
            calls: row.number(2)? as usize,
            written: row.number(3)? as usize,
        };
        Ok(())
    }

    // A new disk of three files, and no log yet. The numbers behind them are of calls that fail.
    fn make(&mut self, alloc: Global, row: &Row) -> Result<(), Stop> {
        self.files = [
            bytes_at(alloc, row, 1)?,
            bytes_at(alloc, row, 2)?,
            bytes_at(alloc, row, 3)?,
        ];
        let failing = row.numbers(alloc, 4)?;
        self.disk = Some(Untold::of(alloc, &self.files, self.room, &failing)?);
        self.log = None;
        Ok(())
    }

    // What a crash leaves is the disk from then on.
    fn crash(&mut self, alloc: Global, row: &Row, out: &mut String) -> Result<(), Stop> {
        let picks = picks_of(alloc, row, 1)?;
        self.log = None;
        let Some(disk) = self.disk.take() else {
            return Err(Stop::NoSuchRow);
        };
        self.disk = crashed(alloc, disk, &picks)?;
        match &self.disk {
            Some(left) => Ok(put_files(out, left)?),
            None => Ok(out.push_str("NotAnImage")?),
        }
    }

    // The log that a row opens, or why it isn't opened.
    fn opened(&mut self, alloc: Global, row: &Row) -> Result<Result<Log, OpenError>, Stop> {
        let is_any = row.text(0)? == "open-any";
        let limit = row.number(1)?;
        match &mut self.disk {
            Some(disk) if is_any => Ok(Log::open_any(alloc, disk, limit)),
            Some(disk) => Ok(Log::open(alloc, disk, limit)),
            None => Err(Stop::NoSuchRow),
        }
    }

    fn open(&mut self, alloc: Global, row: &Row, out: &mut String) -> Result<(), Stop> {
        match self.opened(alloc, row)? {
            Ok(log) => {
                write!(out, "Ok({})", log.len())?;
                self.log = Some(log);
                Ok(())
            }
            Err(error) => put_refusal(out, error),
        }
    }

    // A session over a new disk of the same files, whose call of this number fails.
    fn stop(&self, alloc: Global, row: &Row, out: &mut String) -> Result<(), Stop> {
        let picks = picks_of(alloc, row, 2)?;
        let disk = Untold::of(alloc, &self.files, self.room, &[row.number(1)?])?;
        put_stop(alloc, disk, &self.steps, &picks, out)
    }

    fn add_step(&mut self, alloc: Global, line: &str) -> Result<(), Stop> {
        match line.strip_prefix("step ") {
            Some(step) => {
                self.steps.push(Row::read(alloc, step.as_bytes())?)?;
                Ok(())
            }
            None => Err(Stop::NoSuchRow),
        }
    }

    // A row of a call of the disk, or else of the log.
    fn call(&mut self, alloc: Global, row: &Row, out: &mut String) -> Result<(), Stop> {
        match &mut self.disk {
            Some(disk) => disks::answer(alloc, disk, &mut self.log, row, out),
            None => Err(Stop::NoSuchRow),
        }
    }
}

fn bytes_at(alloc: Global, row: &Row, place: usize) -> Result<Vec<u8>, Stop> {
    Ok(Vec::from_slice(alloc, row.bytes(place)?)?)
}

fn put_files(out: &mut String, disk: &Untold) -> Result<(), AllocError> {
    out.push_str("head ")?;
    put_bytes(out, disk.file(FileNo::Head))?;
    out.push_str(", one ")?;
    put_bytes(out, disk.file(FileNo::One))?;
    out.push_str(", two ")?;
    put_bytes(out, disk.file(FileNo::Two))
}

impl Rows for Disks {
    fn answer(
        &mut self,
        alloc: Global,
        line: &str,
        row: &Row,
        out: &mut String,
    ) -> Result<(), Stop> {
        match row.text(0)? {
            "room" => self.set_room(row),
            "disk" => self.make(alloc, row),
            "crash" => self.crash(alloc, row, out),
            "open" | "open-any" => self.open(alloc, row, out),
            "steps" => {
                self.steps.clear();
                Ok(())
            }
            "step" => self.add_step(alloc, line),
            "stop" => self.stop(alloc, row, out),
            _ => self.call(alloc, row, out),
        }
    }
}
