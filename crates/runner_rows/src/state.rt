//! What rows speak of.
use crate::account::add;
use crate::cases::{Case, case_of};
use crate::form::Form;
use crate::look::{put_object, put_place, put_tasks};
use crate::script::set_script;
use crate::stops::put_stopped;
use mt_disk::Room;
use mt_engine::Engine;
use mt_rows::{Row, Rows, Stop};
use mt_spawn::Script;
use mt_untold::Untold;
use std::alloc::Global;
use std::mem;

/// The most bytes of a disk, and the most calls that write or sync.
const MOST_ROOM: u64 = 1 << 26;

/// A disk, the engine over it, a crew, and what the next crew's commands do.
#[derive(Drop)]
pub struct Turns {
    disk: Option<Untold>,
    engine: Option<Engine>,
    crew: Option<Form>,
    cases: Vec<Case>,
    script: Script,
}

// An empty disk of the room that a row names.
fn disk_of(alloc: Global, row: &Row) -> Result<Untold, Stop> {
    let file = row.number(1)?.min(MOST_ROOM) as usize;
    let room = Room {
        file,
        calls: row.number(2)?.min(MOST_ROOM) as usize,
        written: file.saturating_mul(2),
    };
    Ok(Untold::new(alloc, room)?)
}

// Puts something in the place of what was there.
fn set<T: Drop>(place: &mut T, new: T) {
    *place = new;
}

// The engine of a disk, and where it is; or why there is none.
fn opened(
    alloc: Global,
    disk: &mut Untold,
    limit: u64,
    out: &mut String,
) -> Result<Option<Engine>, Stop> {
    match Engine::open(alloc, disk, limit) {
        Ok(engine) => {
            put_place(&engine, out)?;
            Ok(Some(engine))
        }
        Err(end) => {
            write!(out, "{end:?}")?;
            Ok(None)
        }
    }
}

// `open LIMIT`: the engine of a disk.
fn open(
    alloc: Global,
    disk: &mut Untold,
    engine: &mut Option<Engine>,
    row: &Row,
    out: &mut String,
) -> Result<(), Stop> {
    let opened = opened(alloc, disk, row.number(1)?, out)?;
    set(engine, opened);
    Ok(())
}

// `fail CALL ..`: the calls of the disk that fail.
fn fail(alloc: Global, disk: &mut Untold, row: &Row) -> Result<(), Stop> {
    disk.fail(row.numbers(alloc, 1)?);
    Ok(())
}

// A row of the engine that is there.
fn ask(
    alloc: Global,
    disk: &mut Untold,
    engine: &mut Engine,
    crew: &mut Option<Form>,
    row: &Row,
    out: &mut String,
) -> Result<(), Stop> {
    match row.text(0)? {
        "add" => add(alloc, disk, engine, row, out),
        "object" => put_object(alloc, disk, engine, row, out),
        "tasks" => put_tasks(engine, row, out),
        _ => match crew {
            Some(crew) => crew.answer(alloc, disk, engine, row, out),
            None => Err(Stop::NoSuchRow),
        },
    }
}

impl Turns {
    /// Nothing is there yet.
    pub fn new(alloc: Global) -> Turns {
        Turns {
            disk: None,
            engine: None,
            crew: None,
            cases: Vec::new(alloc),
            script: Script::new(alloc),
        }
    }

    fn begin(&mut self, alloc: Global, row: &Row) -> Result<(), Stop> {
        let disk = disk_of(alloc, row)?;
        set(self, Turns::new(alloc));
        set(&mut self.disk, Some(disk));
        Ok(())
    }

    fn begin_crew(&mut self, alloc: Global, row: &Row) -> Result<(), Stop> {
        let script = mem::replace(&mut self.script, Script::new(alloc));
        let crew = Form::new(alloc, row, &self.cases, script)?;
        set(&mut self.crew, Some(crew));
        Ok(())
    }

    fn add_case(&mut self, alloc: Global, row: &Row) -> Result<(), Stop> {
        self.cases.push(case_of(alloc, row)?)?;
        Ok(())
    }

    // A row of the disk that is there.
    fn call(&mut self, alloc: Global, row: &Row, out: &mut String) -> Result<(), Stop> {
        let Some(disk) = &mut self.disk else {
            return Err(Stop::NoSuchRow);
        };
        match row.text(0)? {
            "open" => open(alloc, disk, &mut self.engine, row, out),
            "fail" => fail(alloc, disk, row),
            "calls" => Ok(write!(out, "{}", disk.made())?),
            "stopped" => put_stopped(alloc, disk, &self.cases, row, out),
            _ => match &mut self.engine {
                Some(engine) => ask(alloc, disk, engine, &mut self.crew, row, out),
                None => Err(Stop::NoSuchRow),
            },
        }
    }
}

impl Rows for Turns {
    fn answer(
        &mut self,
        alloc: Global,
        _line: &str,
        row: &Row,
        out: &mut String,
    ) -> Result<(), Stop> {
        match row.text(0)? {
            "disk" => self.begin(alloc, row),
            "case" | "large" => self.add_case(alloc, row),
            "script" => set_script(alloc, &mut self.script, row),
            "crew" => self.begin_crew(alloc, row),
            _ => self.call(alloc, row, out),
        }
    }
}
