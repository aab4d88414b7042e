//! The rows that add a command to the account, as its log spells it.
ghost use Rattle.std.specs.Prelude.{IfOk};
ghost use Rattle.mt_account.specs.Taken.{IsTaken};
ghost use Rattle.mt_codec.specs.Spelling.{IsWithinLimits};
ghost use Rattle.mt_engine.specs.Ready.{RunGoesOn};
ghost use Rattle.mt_types.specs.Kinds.{kind_of};

use crate::look::put_place;
use md5::{Digest, Md5};
use mt_account::is_taken;
use mt_body::Storing;
use mt_codec::{DecodeError, decode};
use mt_disk::Disk;
use mt_edge::MemSource;
use mt_engine::Engine;
use mt_log::Run;
use mt_rows::{Row, Stop};
use mt_types::{Body, Command};
use mt_untold::Untold;
use std::alloc::Global;

/// How often a part of a command is repeated at most.
const MOST_TIMES: u64 = 10_000;

// The bytes of a command: those of a row, and behind them a part so often.
fn spelling(alloc: Global, row: &Row) -> Result<Vec<u8>, Stop> {
    let mut bytes = Vec::from_slice(alloc, row.bytes(2)?)?;
    if row.len() > 3 {
        for _ in 0..row.number(4)?.min(MOST_TIMES) {
            bytes.extend_from_slice(row.bytes(3)?)?;
        }
    }
    Ok(bytes)
}

// The command that these bytes spell.
fn decoded(alloc: Global, bytes: &[u8]) -> Result<Command<Body>, Stop>
    ensures { IfOk result (λ c. IsWithinLimits c) }
{
    match decode(alloc, bytes) {
        Ok(command) => Ok(command),
        Err(DecodeError::NotACommand) => Err(Stop::NoSuchRow),
        Err(DecodeError::Memory) => Err(Stop::Memory),
    }
}

// The command that a row spells, one that an engine takes.
fn command_of(alloc: Global, row: &Row) -> Result<Command<Body>, Stop>
    ensures limits { IfOk result (λ c. IsWithinLimits c) }
    ensures kind { IfOk result (λ c. IsTaken (kind_of c)) }
{
    let bytes = spelling(alloc, row)?;
    let command = decoded(alloc, &bytes)?;
    if is_taken(&command) {
        Ok(command)
    } else {
        Err(Stop::NoSuchRow)
    }
}

// The command of a row, behind a body that is stored in a run.
fn put_command<D: Disk>(
    alloc: Global,
    disk: &mut D,
    engine: &mut Engine,
    run: Run,
    row: &Row,
    out: &mut String,
) -> Result<(), Stop>
    requires { RunGoesOn D.seen D.may_leave disk.old engine.old run }
{
    let command = command_of(alloc, row)?;
    let answer = engine.accept(alloc, disk, run, command);
    write!(out, "{answer:?}; ")?;
    put_place(engine, out)
}

// The source of the body of a row.
fn source_of(alloc: Global, row: &Row) -> Result<MemSource, Stop> {
    let bytes = Vec::from_slice(alloc, row.bytes(1)?)?;
    Ok(MemSource::new(alloc, bytes))
}

/// `add BODY COMMAND [PART TIMES]`: a body, and a command behind it, which may end in a part so often.
pub fn add(
    alloc: Global,
    disk: &mut Untold,
    engine: &mut Engine,
    row: &Row,
    out: &mut String,
) -> Result<(), Stop> {
    if engine.is_closed() || engine.is_old() {
        return Err(Stop::NoSuchRow);
    }
    let mut source = source_of(alloc, row)?;
    let mut sum = Md5::new();
    let mut run = engine.begin_run(disk);
    match engine.store_body(alloc, disk, &mut run, &mut source, &mut sum) {
        Storing::Stored(_) => put_command(alloc, disk, engine, run, row, out),
        other => Ok(write!(out, "{other:?}")?),
    }
}
