//! A turn whose disk fails, and what a crash leaves of it.
use crate::cases::Case;
use crate::form::{Form, put_turned};
use mt_disk::{CrashError, Pick};
use mt_engine::Engine;
use mt_rows::{Row, Stop};
use mt_spawn::Script;
use mt_untold::{Untold, picks_of};
use std::alloc::{AllocError, Global};

// The engine of a disk.
fn opened(alloc: Global, disk: &mut Untold, limit: u64) -> Result<Engine, Stop> {
    match Engine::open(alloc, disk, limit) {
        Ok(engine) => Ok(engine),
        Err(_) => Err(Stop::NoSuchRow),
    }
}

// The call of the disk of this number fails.
fn fail(alloc: Global, disk: &mut Untold, call: u64) -> Result<(), AllocError> {
    let mut failing = Vec::new(alloc);
    failing.push(call)?;
    disk.fail(failing);
    Ok(())
}

// A turn of a crew in which this call of the disk fails, and where the engine then is.
fn put_turn(
    alloc: Global,
    disk: &mut Untold,
    engine: &mut Engine,
    call: u64,
    crew: &mut Form,
    out: &mut String,
) -> Result<(), Stop> {
    fail(alloc, disk, call)?;
    let turn = crew.turn(alloc, disk, engine, 0)?;
    put_turned(engine, turn, out)
}

// Such a turn of an engine that is opened for it.
fn put_failing(
    alloc: Global,
    disk: &mut Untold,
    limit: u64,
    call: u64,
    crew: &mut Form,
    out: &mut String,
) -> Result<(), Stop> {
    let mut engine = opened(alloc, disk, limit)?;
    put_turn(alloc, disk, &mut engine, call, crew, out)
}

// How many commands a disk has.
fn put_position(
    alloc: Global,
    disk: &mut Untold,
    limit: u64,
    out: &mut String,
) -> Result<(), Stop> {
    let engine = opened(alloc, disk, limit)?;
    Ok(write!(out, "{}", engine.position())?)
}

// What a crash leaves of a disk.
fn put_left(
    alloc: Global,
    disk: Untold,
    limit: u64,
    picks: &[Pick],
    out: &mut String,
) -> Result<(), Stop> {
    out.push_str("; left ")?;
    match disk.crash(alloc, picks) {
        Ok(mut left) => put_position(alloc, &mut left, limit, out),
        Err(CrashError::NotAnImage) => Ok(out.push_str("no image")?),
        Err(CrashError::Memory) => Err(Stop::Memory),
    }
}

// A turn over a disk in which this call of it fails, and how many commands a crash by these picks leaves.
fn put_crashed(
    alloc: Global,
    mut disk: Untold,
    limit: u64,
    call: u64,
    crew: &mut Form,
    picks: &[Pick],
    out: &mut String,
) -> Result<(), Stop> {
    put_failing(alloc, &mut disk, limit, call, crew, out)?;
    put_left(alloc, disk, limit, picks, out)
}

// The same over a copy of a disk, by the limit and the call that a row names.
fn put_stopped_of(
    alloc: Global,
    disk: &Untold,
    row: &Row,
    crew: &mut Form,
    picks: &[Pick],
    out: &mut String,
) -> Result<(), Stop> {
    let limit = row.number(3)?;
    let call = row.number(4)?;
    let copy = Untold::over(alloc, disk)?;
    put_crashed(alloc, copy, limit, call, crew, picks, out)
}

/// `stopped KIND SLOTS LIMIT CALL PICK..`: a turn of a new crew over a copy of a disk.
pub fn put_stopped(
    alloc: Global,
    disk: &Untold,
    cases: &[Case],
    row: &Row,
    out: &mut String,
) -> Result<(), Stop> {
    let mut crew = Form::new(alloc, row, cases, Script::new(alloc))?;
    let picks = picks_of(alloc, row, 5)?;
    put_stopped_of(alloc, disk, row, &mut crew, &picks, out)
}
