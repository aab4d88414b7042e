//! A crew whose spawner tells what its children end in, or one whose spawner doesn't.
use crate::cases::{Case, Cases, copied};
use crate::crew::Crew;
use crate::look::put_place;
use crate::script::put_counts;
use crate::silent::Silent;
use mt_engine::Engine;
use mt_rows::{Row, Stop};
use mt_runner::Turn;
use mt_spawn::{MemSpawner, Script};
use mt_untold::Untold;
use std::alloc::{AllocError, Global};

/// The most idle turns of a row.
const MOST_TURNS: u64 = 1_000_000;

/// A crew, by its spawner.
#[derive(Drop)]
pub enum Form {
    /// It tells.
    Told(Crew<MemSpawner<Cases>>),
    /// It tells nothing.
    Untold(Crew<Silent>),
}

// Whether the crew that a row asks for is told.
fn is_told(row: &Row) -> Result<bool, Stop> {
    match row.text(1)? {
        "told" => Ok(true),
        "untold" => Ok(false),
        _ => Err(Stop::NoSuchRow),
    }
}

// A crew, told or not, whose commands do this by a script.
fn form_of(
    alloc: Global,
    is_told: bool,
    slots: u64,
    cases: Cases,
    script: Script,
) -> Result<Form, Stop> {
    let spawner = MemSpawner::new(alloc, cases, script);
    if is_told {
        Ok(Form::Told(Crew::new(alloc, slots, spawner)?))
    } else {
        let silent = Silent { inner: spawner };
        Ok(Form::Untold(Crew::new(alloc, slots, silent)?))
    }
}

impl Form {
    /// The crew that a row asks for, whose commands do this by a script.
    pub fn new(alloc: Global, row: &Row, cases: &[Case], script: Script) -> Result<Form, Stop> {
        let is_told = is_told(row)?;
        let slots = row.number(2)?;
        let cases = copied(alloc, cases)?;
        form_of(alloc, is_told, slots, cases, script)
    }

    /// One turn, at a moment.
    pub fn turn(
        &mut self,
        alloc: Global,
        disk: &mut Untold,
        engine: &mut Engine,
        moment: u64,
    ) -> Result<Turn, Stop> {
        match self {
            Form::Told(crew) => crew.turn(alloc, disk, engine, moment),
            Form::Untold(crew) => crew.turn(alloc, disk, engine, moment),
        }
    }

    fn drain(
        &mut self,
        alloc: Global,
        disk: &mut Untold,
        engine: &mut Engine,
        most: u64,
        moment: u64,
    ) -> Result<Turn, Stop> {
        match self {
            Form::Told(crew) => crew.drain(alloc, disk, engine, most, moment),
            Form::Untold(crew) => crew.drain(alloc, disk, engine, most, moment),
        }
    }

    fn stop(&mut self) {
        match self {
            Form::Told(crew) => crew.stop(),
            Form::Untold(crew) => crew.stop(),
        }
    }

    fn put_counts(&self, out: &mut String) -> Result<(), AllocError> {
        match self {
            Form::Told(crew) => put_counts(crew.spawner(), out),
            Form::Untold(crew) => put_counts(&crew.spawner().inner, out),
        }
    }

    // How many of so many turns are idle.
    fn count_idle(
        &mut self,
        alloc: Global,
        disk: &mut Untold,
        engine: &mut Engine,
        turns: u64,
    ) -> Result<u64, Stop> {
        let mut idle = 0u64;
        for _ in 0..turns.min(MOST_TURNS) {
            if self.turn(alloc, disk, engine, 0)? == Turn::Idle {
                idle = idle.saturating_add(1);
            }
        }
        Ok(idle)
    }

    // `turn MOMENT`
    fn put_turn(
        &mut self,
        alloc: Global,
        disk: &mut Untold,
        engine: &mut Engine,
        row: &Row,
        out: &mut String,
    ) -> Result<(), Stop> {
        let turn = self.turn(alloc, disk, engine, row.number(1)?)?;
        put_turned(engine, turn, out)
    }

    // `drain MOST MOMENT`
    fn put_drain(
        &mut self,
        alloc: Global,
        disk: &mut Untold,
        engine: &mut Engine,
        row: &Row,
        out: &mut String,
    ) -> Result<(), Stop> {
        let turn = self.drain(alloc, disk, engine, row.number(1)?, row.number(2)?)?;
        put_turned(engine, turn, out)
    }

    // `idle TURNS`
    fn put_idle(
        &mut self,
        alloc: Global,
        disk: &mut Untold,
        engine: &mut Engine,
        row: &Row,
        out: &mut String,
    ) -> Result<(), Stop> {
        let idle = self.count_idle(alloc, disk, engine, row.number(1)?)?;
        Ok(write!(out, "{idle}")?)
    }

    // The rows that make no turn.
    fn answer_still(&mut self, row: &Row, out: &mut String) -> Result<(), Stop> {
        match row.text(0)? {
            "stop" => {
                self.stop();
                Ok(())
            }
            "counts" => Ok(self.put_counts(out)?),
            _ => Err(Stop::NoSuchRow),
        }
    }

    /// Answers a row of turns.
    pub fn answer(
        &mut self,
        alloc: Global,
        disk: &mut Untold,
        engine: &mut Engine,
        row: &Row,
        out: &mut String,
    ) -> Result<(), Stop> {
        match row.text(0)? {
            "turn" => self.put_turn(alloc, disk, engine, row, out),
            "drain" => self.put_drain(alloc, disk, engine, row, out),
            "idle" => self.put_idle(alloc, disk, engine, row, out),
            _ => self.answer_still(row, out),
        }
    }
}

/// Appends what a turn did, and where the engine then is.
pub fn put_turned(engine: &Engine, turn: Turn, out: &mut String) -> Result<(), Stop> {
    write!(out, "{turn:?}; ")?;
    put_place(engine, out)
}
