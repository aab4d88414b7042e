//! Sessions over a disk in which a call of the disk fails, and what a crash leaves of them.
use crate::commands;
use crate::look::put_rows;
use crate::state::opened;
use mt_disk::{CrashError, Pick};
use mt_engine::Engine;
use mt_rows::{Row, Stop};
use mt_untold::Untold;
use std::alloc::{AllocError, Global};

/// A session over a disk: the engine is opened under a limit and does each step, of whose calls of the disk the one of this number
/// fails; a crash leaves what the picks say, and the engine is opened again. Prints what each step answers, and what then stands.
pub fn put_stop(
    alloc: Global,
    mut disk: Untold,
    limit: u64,
    failing: u64,
    steps: &[Row],
    picks: &[Pick],
    out: &mut String,
) -> Result<(), Stop> {
    if !put_session(alloc, &mut disk, limit, failing, steps, out)? {
        return Ok(());
    }
    match disk.crash(alloc, picks) {
        Ok(left) => put_left(alloc, left, limit, out),
        Err(CrashError::NotAnImage) => Ok(out.push_str("; no image")?),
        Err(CrashError::Memory) => Err(Stop::Memory),
    }
}

// The steps of a session; `false` where no engine is opened.
fn put_session(
    alloc: Global,
    disk: &mut Untold,
    limit: u64,
    failing: u64,
    steps: &[Row],
    out: &mut String,
) -> Result<bool, Stop> {
    let numbers = one(alloc, failing)?;
    match opened(alloc, disk, limit, out)? {
        Some(engine) => {
            disk.fail(numbers);
            put_steps(alloc, disk, engine, steps, out)?;
            Ok(true)
        }
        None => Ok(false),
    }
}

fn one(alloc: Global, number: u64) -> Result<Vec<u64>, AllocError> {
    let mut numbers = Vec::new(alloc);
    numbers.push(number)?;
    Ok(numbers)
}

fn put_steps(
    alloc: Global,
    disk: &mut Untold,
    mut engine: Engine,
    steps: &[Row],
    out: &mut String,
) -> Result<(), Stop> {
    for step in steps {
        put_step(alloc, disk, &mut engine, step, out)?;
    }
    Ok(())
}

fn put_step(
    alloc: Global,
    disk: &mut Untold,
    engine: &mut Engine,
    step: &Row,
    out: &mut String,
) -> Result<(), Stop> {
    out.push_str("; ")?;
    if engine.is_closed() {
        return Ok(out.push_str("closed")?);
    }
    commands::answer(alloc, disk, engine, step, out)
}

fn put_left(alloc: Global, mut left: Untold, limit: u64, out: &mut String) -> Result<(), Stop> {
    out.push_str("; left ")?;
    match opened(alloc, &mut left, limit, out)? {
        Some(engine) => {
            out.push_str(": ")?;
            put_rows(alloc, engine.tree(), out)
        }
        None => Ok(()),
    }
}
