//! The disk and the engine that rows speak of.
use crate::stops::put_stop;
use crate::{commands, look};
use mt_disk::{FileNo, Room};
use mt_engine::Engine;
use mt_rows::{Row, Rows, Stop};
use mt_untold::{Untold, picks_of};
use std::alloc::Global;

/// The room of a disk: some bodies of more than one piece.
const ROOM: Room = Room {
    file: 500_000,
    calls: 1_024,
    written: 1_000_000,
};

/// An engine over a disk, and the steps of a session that is stopped.
#[derive(Drop)]
pub struct Engines {
    disk: Option<Untold>,
    engine: Option<Engine>,
    steps: Vec<Row>,
}

/// Opens the engine of a disk under a limit, and prints its length and its position, or why it isn't opened.
pub fn opened(
    alloc: Global,
    disk: &mut Untold,
    limit: u64,
    out: &mut String,
) -> Result<Option<Engine>, Stop> {
    match Engine::open(alloc, disk, limit) {
        Ok(engine) => {
            write!(
                out,
                "Ok, log {}, position {}",
                engine.used(),
                engine.position()
            )?;
            Ok(Some(engine))
        }
        Err(end) => {
            write!(out, "{end:?}")?;
            Ok(None)
        }
    }
}

// Puts something in the place of what was there.
fn set<T: Drop>(place: &mut Option<T>, new: Option<T>) {
    *place = new;
}

// Where the engine is after a row, and how many calls of the disk the row made.
fn put_after(engine: &Engine, calls: u64, out: &mut String) -> Result<(), Stop> {
    if engine.is_closed() {
        out.push_str("; closed")?;
    } else {
        write!(
            out,
            "; log {}, position {}",
            engine.used(),
            engine.position()
        )?;
    }
    write!(out, "; calls {calls}")?;
    Ok(())
}

// A session over a copy of a disk.
fn stop(
    alloc: Global,
    disk: &Untold,
    row: &Row,
    steps: &[Row],
    out: &mut String,
) -> Result<(), Stop> {
    let limit = row.number(1)?;
    let failing = row.number(2)?;
    let picks = picks_of(alloc, row, 3)?;
    let copy = Untold::over(alloc, disk)?;
    put_stop(alloc, copy, limit, failing, steps, &picks, out)
}

// A row of the engine that is there.
fn call_engine(
    alloc: Global,
    disk: &mut Untold,
    engine: &mut Engine,
    row: &Row,
    out: &mut String,
) -> Result<(), Stop> {
    let before = disk.made();
    if commands::answers(row.text(0)?) {
        commands::answer(alloc, disk, engine, row, out)?;
        return put_after(engine, disk.made().saturating_sub(before), out);
    }
    look::answer(alloc, disk, engine, row, out)
}

// `fail CALL ..`: the calls of the disk that fail.
fn fail(alloc: Global, disk: &mut Untold, row: &Row) -> Result<(), Stop> {
    disk.fail(row.numbers(alloc, 1)?);
    Ok(())
}

// `open LIMIT`
fn open(
    alloc: Global,
    disk: &mut Untold,
    engine: &mut Option<Engine>,
    row: &Row,
    out: &mut String,
) -> Result<(), Stop> {
    *engine = opened(alloc, disk, row.number(1)?, out)?;
    Ok(())
}

impl Engines {
    /// No disk yet.
    pub fn new(alloc: Global) -> Engines {
        Engines {
            disk: None,
            engine: None,
            steps: Vec::new(alloc),
        }
    }

    // A row of the disk that is there.
    fn call(&mut self, alloc: Global, row: &Row, out: &mut String) -> Result<(), Stop> {
        let Some(disk) = &mut self.disk else {
            return Err(Stop::NoSuchRow);
        };
        match row.text(0)? {
            "open" => open(alloc, disk, &mut self.engine, row, out),
            "fail" => fail(alloc, disk, row),
            "one" => Ok(look::put_bytes(out, disk.file(FileNo::One))?),
            "stop" => stop(alloc, disk, row, &self.steps, out),
            _ => match &mut self.engine {
                Some(engine) => call_engine(alloc, disk, engine, row, out),
                None => Err(Stop::NoSuchRow),
            },
        }
    }

    // An empty disk, and no engine.
    fn begin(&mut self, alloc: Global) -> Result<(), Stop> {
        let disk = Untold::new(alloc, ROOM)?;
        set(&mut self.disk, Some(disk));
        set(&mut self.engine, None);
        Ok(())
    }

    fn forget_steps(&mut self) -> Result<(), Stop> {
        self.steps.clear();
        Ok(())
    }

    fn add_step(&mut self, alloc: Global, line: &str) -> Result<(), Stop> {
        match line.strip_prefix("step ") {
            Some(step) => {
                self.steps.push(Row::read(alloc, step.as_bytes())?)?;
                Ok(())
            }
            None => Err(Stop::NoSuchRow),
        }
    }
}

impl Rows for Engines {
    fn answer(
        &mut self,
        alloc: Global,
        line: &str,
        row: &Row,
        out: &mut String,
    ) -> Result<(), Stop> {
        match row.text(0)? {
            "disk" => self.begin(alloc),
            "steps" => self.forget_steps(),
            "step" => self.add_step(alloc, line),
            _ => self.call(alloc, row, out),
        }
    }
}
