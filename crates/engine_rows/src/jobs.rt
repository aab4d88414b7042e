//! The rows on jobs: a command as the log spells it, and how a job stands.
ghost use Rattle.std.specs.Prelude.{IfOk};
ghost use Rattle.mt_account.specs.Taken.{IsTaken};
ghost use Rattle.mt_codec.specs.Spelling.{IsWithinLimits};
ghost use Rattle.mt_engine.specs.Ready.{RunGoesOn};
ghost use Rattle.mt_types.specs.Kinds.{kind_of};

use crate::commands::{pattern, put_unstored};
use md5::{Digest, Md5};
use mt_account::is_taken;
use mt_body::Storing;
use mt_codec::{DecodeError, decode};
use mt_disk::Disk;
use mt_edge::MemSource;
use mt_engine::Engine;
use mt_log::Run;
use mt_rows::{Row, Stop};
use mt_types::{Body, Command, Job};
use mt_untold::Untold;
use std::alloc::{AllocError, Global};

/// The most bytes of a body.
const MOST: u64 = 200_000;

// The command that these bytes spell.
fn decoded(alloc: Global, bytes: &[u8]) -> Result<Command<Body>, Stop>
    ensures { IfOk result (λ c. IsWithinLimits c) }
{
    match decode(alloc, bytes) {
        Ok(command) => Ok(command),
        Err(DecodeError::NotACommand) => Err(Stop::NoSuchRow),
        Err(DecodeError::Memory) => Err(Stop::Memory),
    }
}

// The command that a row spells, one that an engine takes.
fn command_of(alloc: Global, row: &Row) -> Result<Command<Body>, Stop>
    ensures limits { IfOk result (λ c. IsWithinLimits c) }
    ensures kind { IfOk result (λ c. IsTaken (kind_of c)) }
{
    let command = decoded(alloc, row.bytes(1)?)?;
    if is_taken(&command) {
        Ok(command)
    } else {
        Err(Stop::NoSuchRow)
    }
}

// A source of so many bytes.
fn source_of(alloc: Global, row: &Row) -> Result<MemSource, Stop> {
    let len = row.number(2)?;
    if len > MOST {
        return Err(Stop::NoSuchRow);
    }
    Ok(MemSource::new(alloc, pattern(alloc, len as usize)?))
}

/// `command BYTES COUNT`: what the bytes spell, behind a body of so many bytes in the same run.
pub fn command(
    alloc: Global,
    disk: &mut Untold,
    engine: &mut Engine,
    row: &Row,
    out: &mut String,
) -> Result<(), Stop> {
    if engine.is_closed() || engine.is_old() {
        return Err(Stop::NoSuchRow);
    }
    let mut source = source_of(alloc, row)?;
    let mut sum = Md5::new();
    let mut run = engine.begin_run(disk);
    match engine.store_body(alloc, disk, &mut run, &mut source, &mut sum) {
        Storing::Stored(_) => put_command(alloc, disk, engine, run, row, out),
        other => put_unstored(disk, engine, run, &other, out),
    }
}

// The command of a row, behind a body that is stored in a run.
fn put_command<D: Disk>(
    alloc: Global,
    disk: &mut D,
    engine: &mut Engine,
    run: Run,
    row: &Row,
    out: &mut String,
) -> Result<(), Stop>
    requires { RunGoesOn D.seen D.may_leave disk.old engine.old run }
{
    let command = command_of(alloc, row)?;
    let answer = engine.accept(alloc, disk, run, command);
    Ok(write!(out, "{answer:?}")?)
}

// Whether a command has room behind pieces of so many bytes.
fn has_room(
    alloc: Global,
    engine: &Engine,
    size: u64,
    command: Command<Body>,
) -> Result<bool, AllocError>
    requires { IsWithinLimits command }
{
    engine.has_room(alloc, size, &command)
}

/// `room BYTES COUNT`: whether there is room for what the bytes spell behind pieces of so many bytes.
pub fn put_room(alloc: Global, engine: &Engine, row: &Row, out: &mut String) -> Result<(), Stop> {
    let size = row.number(2)?;
    let has_room = has_room(alloc, engine, size, command_of(alloc, row)?)?;
    Ok(write!(out, "{has_room}")?)
}

// How a job stands.
fn put_found(job: &Job<Body>, out: &mut String) -> Result<(), Stop> {
    let how = if job.done.is_none() {
        "running"
    } else if job.cancelled {
        "cancelled"
    } else {
        "finished"
    };
    write!(
        out,
        "{how}, inputs {}, missing {}, committed {}",
        job.inputs.len(),
        job.missing.len(),
        job.trace.len()
    )?;
    Ok(())
}

/// `job NUMBER`: how a job stands.
pub fn put_job(engine: &Engine, row: &Row, out: &mut String) -> Result<(), Stop> {
    match engine.jobs().get(row.number(1)?) {
        Some(job) => put_found(job, out),
        None => Ok(out.push_str("none")?),
    }
}
