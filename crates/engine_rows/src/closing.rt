//! The rows that store the five texts of a job.
ghost use Rattle.std.specs.Prelude.{◌≡◌, ◌≤◌, IfOk, IsTrue, is_some, true};
ghost use Rattle.mt_account.specs.Taken.{IsTaken};
ghost use Rattle.mt_codec.specs.Spelling.{IsWithinLimits};
ghost use Rattle.mt_engine.specs.Ready.{RunIsReady};
ghost use Rattle.mt_model.specs.Bodies.{OfArchive};
ghost use Rattle.mt_model.specs.State.{job_at};
ghost use Rattle.mt_types.specs.Kinds.{kind_of};
ghost use Rattle.mt_types.specs.Limits.{is_number, is_placed};

use crate::commands::{moment_at, put_dropped};
use crate::look::put_digest;
use mt_disk::Disk;
use mt_engine::{Archiving, Engine};
use mt_log::Run;
use mt_rows::{Row, Stop};
use mt_types::{Archive, Body, Command, LAST_MOMENT, NUMBERS_A_COMMAND, NUMBERS_END};
use mt_untold::Untold;
use std::alloc::{AllocError, Global};

/// The login that the names in the texts have.
const LOGIN: &str = "l";

// How a job of an engine is to end.
#[derive(Clone, Copy)]
struct Ending {
    job: u64,
    cancelled: bool,
    moment: u64,
}

// Whether a job may have this number.
fn is_job(number: u64) -> bool
    ensures { result ≡ is_number number }
{
    number % NUMBERS_A_COMMAND == 0 && number < NUMBERS_END
}

// `NUMBER HOW MOMENT`, of a job that is there.
fn ending_at(engine: &Engine, row: &Row) -> Result<Ending, Stop>
    ensures number { IfOk result (λ e. IsTrue (is_number e.job)) }
    ensures found { IfOk result (λ e. is_some (job_at engine.now.state.jobs e.job) ≡ true) }
    ensures moment { IfOk result (λ e. e.moment ≤ LAST_MOMENT) }
{
    let job = row.number(1)?;
    let cancelled = row.text(2)? == "cancelled";
    let moment = moment_at(row, 3)?;
    if !is_job(job) {
        return Err(Stop::NoSuchRow);
    }
    match engine.jobs().get(job) {
        Some(_) => Ok(Ending {
            job,
            cancelled,
            moment,
        }),
        None => Err(Stop::NoSuchRow),
    }
}

// A body without bytes.
fn none() -> Body
    ensures { IsTrue (is_placed result) }
{
    Body {
        first: 0,
        len: 0,
        md5: [0; 16],
    }
}

// Five bodies without bytes.
fn blank() -> Archive<Body>
    ensures { OfArchive (λ b. IsTrue (is_placed b)) result }
{
    Archive {
        err: none(),
        fail: none(),
        input: none(),
        status: none(),
        out: none(),
    }
}

// The command that ends a job with five bodies.
fn command_of(ending: Ending, archive: Archive<Body>) -> Command<Body>
    requires number { IsTrue (is_number ending.job) }
    requires moment { ending.moment ≤ LAST_MOMENT }
    requires placed { OfArchive (λ b. IsTrue (is_placed b)) archive }
    ensures kind { IsTaken (kind_of result) }
    ensures limits { IsWithinLimits result }
{
    Command::Close {
        job: ending.job,
        cancelled: ending.cancelled,
        archive,
        moment: ending.moment,
    }
}

fn put_body(name: &str, body: &Body, out: &mut String) -> Result<(), AllocError> {
    write!(out, "{name} {} at {} ", body.len, body.first)?;
    put_digest(out, &body.md5)
}

// The bodies of five texts.
fn put_archive(archive: &Archive<Body>, out: &mut String) -> Result<(), AllocError> {
    put_body("err", &archive.err, out)?;
    put_body("; fail", &archive.fail, out)?;
    put_body("; in", &archive.input, out)?;
    put_body("; status", &archive.status, out)?;
    put_body("; out", &archive.out, out)
}

/// `texts NUMBER HOW MOMENT`: the five texts of a job are stored in a run that is given up.
pub fn texts(
    alloc: Global,
    disk: &mut Untold,
    engine: &mut Engine,
    row: &Row,
    out: &mut String,
) -> Result<(), Stop> {
    if engine.is_closed() || engine.is_old() {
        return Err(Stop::NoSuchRow);
    }
    let ending = ending_at(engine, row)?;
    let mut run = engine.begin_run(disk);
    match engine.store_archive(
        alloc,
        disk,
        &mut run,
        LOGIN,
        ending.job,
        ending.cancelled,
        ending.moment,
    ) {
        Archiving::Stored(archive) => put_archive(&archive, out)?,
        other => write!(out, "{other:?}")?,
    }
    put_dropped(disk, engine, run, out)
}

// The texts of a job are stored in a run, and a command ends it.
fn end_job<D: Disk>(
    alloc: Global,
    disk: &mut D,
    engine: &mut Engine,
    mut run: Run,
    ending: Ending,
    out: &mut String,
) -> Result<(), Stop>
    requires ready { RunIsReady D.seen D.may_leave disk.old engine.old run }
    requires number { IsTrue (is_number ending.job) }
    requires moment { ending.moment ≤ LAST_MOMENT }
    requires found { is_some (job_at engine.old.state.jobs ending.job) ≡ true }
{
    match engine.store_archive(
        alloc,
        disk,
        &mut run,
        LOGIN,
        ending.job,
        ending.cancelled,
        ending.moment,
    ) {
        Archiving::Stored(archive) => {
            let answer = engine.accept(alloc, disk, run, command_of(ending, archive));
            Ok(write!(out, "{answer:?}")?)
        }
        other => {
            write!(out, "{other:?}")?;
            put_dropped(disk, engine, run, out)
        }
    }
}

// Whether the command that ends a job has room behind pieces of so many bytes.
fn has_room(alloc: Global, engine: &Engine, size: u64, ending: Ending) -> Result<bool, AllocError>
    requires number { IsTrue (is_number ending.job) }
    requires moment { ending.moment ≤ LAST_MOMENT }
{
    let command = command_of(ending, blank());
    engine.has_room(alloc, size, &command)
}

/// `close NUMBER HOW MOMENT`: how much the texts of a job add, whether that has room, and what becomes of the command that ends it.
pub fn close(
    alloc: Global,
    disk: &mut Untold,
    engine: &mut Engine,
    row: &Row,
    out: &mut String,
) -> Result<(), Stop> {
    if engine.is_closed() || engine.is_old() {
        return Err(Stop::NoSuchRow);
    }
    let ending = ending_at(engine, row)?;
    let size = engine.archive_len(alloc, LOGIN, ending.job, ending.cancelled, ending.moment)?;
    write!(out, "adds {size}, ")?;
    if has_room(alloc, engine, size, ending)? {
        let run = engine.begin_run(disk);
        end_job(alloc, disk, engine, run, ending, out)
    } else {
        Ok(out.push_str("no room")?)
    }
}
