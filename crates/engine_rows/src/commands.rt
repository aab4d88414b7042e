//! The rows that end a run with a command, or without.
ghost use Rattle.std.specs.Prelude.{IfOk, IsTrue};
ghost use Rattle.mt_account.specs.Taken.{IsTaken};
ghost use Rattle.mt_codec.specs.Spelling.{IsWithinLimits};
ghost use Rattle.mt_engine.specs.Ready.{RunGoesOn};
ghost use Rattle.mt_types.specs.Kinds.{kind_of};
ghost use Rattle.mt_types.specs.Limits.{is_moment};

use crate::{closing, jobs};
use md5::{Digest, Md5};
use mt_body::Storing;
use mt_disk::Disk;
use mt_edge::MemSource;
use mt_engine::{Accepted, Engine};
use mt_log::Run;
use mt_rows::{Row, Stop};
use mt_types::{Body, Command, Fields, LAST_MOMENT, Path, Text, is_content_type};
use mt_untold::Untold;
use std::alloc::{AllocError, Global};

/// The most bytes of a body.
const MOST: u64 = 200_000;

/// The path of a text of the login `l`.
pub fn path_at(alloc: Global, row: &Row, place: usize) -> Result<Path, Stop> {
    match Path::plain(alloc, "l", row.bytes(place)?) {
        Ok(path) => Ok(path),
        Err(_) => Err(Stop::NoSuchRow),
    }
}

/// A moment that a command may have.
pub fn moment_at(row: &Row, place: usize) -> Result<u64, Stop>
    ensures { IfOk result (λ m. IsTrue (is_moment m)) }
{
    match row.number(place)? {
        moment if moment <= LAST_MOMENT => Ok(moment),
        _ => Err(Stop::NoSuchRow),
    }
}

/// So many bytes, no two pieces of which are alike.
pub fn pattern(alloc: Global, len: usize) -> Result<Vec<u8>, AllocError> {
    let mut bytes = Vec::with_capacity(alloc, len)?;
    for i in 0..len {
        bytes.push(((i % 251) ^ (i / 256 % 256)) as u8)?;
    }
    Ok(bytes)
}

// A put of a body as a text.
fn put_of(alloc: Global, path: Path, body: Body, moment: u64) -> Result<Command<Body>, Stop>
    requires { IsTrue (is_moment moment) }
    ensures kind { IfOk result (λ c. IsTaken (kind_of c)) }
    ensures limits { IfOk result (λ c. IsWithinLimits c) }
{
    let content_type = Text::from_str(alloc, "text/plain")?;
    if !is_content_type(content_type.as_bytes()) || (body.len == 0 && body.first != 0) {
        return Err(Stop::NoSuchRow);
    }
    Ok(Command::Put {
        path,
        content_type,
        body,
        durability: None,
        metadata: Fields::new(alloc),
        moment,
    })
}

// A source of so many bytes, whose reads of these numbers fail.
fn source_at(alloc: Global, row: &Row) -> Result<MemSource, Stop> {
    let len = row.number(2)?;
    if len > MOST {
        return Err(Stop::NoSuchRow);
    }
    let failing = row.numbers(alloc, 4)?;
    let bytes = pattern(alloc, len as usize)?;
    Ok(MemSource::new(alloc, bytes).failing(failing))
}

// `put PATH COUNT MOMENT READ..`: so many bytes, of a source whose reads of these numbers fail.
fn put(
    alloc: Global,
    disk: &mut Untold,
    engine: &mut Engine,
    row: &Row,
    out: &mut String,
) -> Result<(), Stop> {
    let moment = moment_at(row, 3)?;
    let source = source_at(alloc, row)?;
    put_from(
        alloc,
        disk,
        engine,
        source,
        path_at(alloc, row, 1)?,
        moment,
        out,
    )
}

// A put of the bytes of a source.
fn put_from(
    alloc: Global,
    disk: &mut Untold,
    engine: &mut Engine,
    mut source: MemSource,
    path: Path,
    moment: u64,
    out: &mut String,
) -> Result<(), Stop>
    requires { IsTrue (is_moment moment) }
{
    if engine.is_closed() || engine.is_old() {
        return Err(Stop::NoSuchRow);
    }
    let mut sum = Md5::new();
    let mut run = engine.begin_run(disk);
    match engine.store_body(alloc, disk, &mut run, &mut source, &mut sum) {
        Storing::Stored(body) => put_stored(alloc, disk, engine, run, path, body, moment, out),
        other => put_unstored(disk, engine, run, &other, out),
    }
}

// A put of a body that is stored in a run.
fn put_stored<D: Disk>(
    alloc: Global,
    disk: &mut D,
    engine: &mut Engine,
    run: Run,
    path: Path,
    body: Body,
    moment: u64,
    out: &mut String,
) -> Result<(), Stop>
    requires ready { RunGoesOn D.seen D.may_leave disk.old engine.old run }
    requires moment { IsTrue (is_moment moment) }
{
    let command = put_of(alloc, path, body, moment)?;
    let answer = engine.accept(alloc, disk, run, command);
    Ok(write!(out, "{answer:?}")?)
}

/// What became of a body that isn't stored whole, and of its run.
pub fn put_unstored<D: Disk>(
    disk: &mut D,
    engine: &mut Engine,
    run: Run,
    stored: &Storing,
    out: &mut String,
) -> Result<(), Stop>
    requires { RunGoesOn D.seen D.may_leave disk.old engine.old run }
{
    write!(out, "{stored:?}")?;
    if !engine.is_closed() {
        let end = engine.end_run(disk, run);
        write!(out, ", {end:?}")?;
    }
    Ok(())
}

// `give-up PATH COUNT`: so many bytes are stored, and the run is given up.
fn give_up(
    alloc: Global,
    disk: &mut Untold,
    engine: &mut Engine,
    row: &Row,
    out: &mut String,
) -> Result<(), Stop> {
    if engine.is_closed() || engine.is_old() {
        return Err(Stop::NoSuchRow);
    }
    let mut source = source_at(alloc, row)?;
    let mut sum = Md5::new();
    let mut run = engine.begin_run(disk);
    let stored = engine.store_body(alloc, disk, &mut run, &mut source, &mut sum);
    put_given_up(disk, engine, run, &stored, out)
}

// What became of a body, and of its run, which is given up.
fn put_given_up<D: Disk>(
    disk: &mut D,
    engine: &mut Engine,
    run: Run,
    stored: &Storing,
    out: &mut String,
) -> Result<(), Stop>
    requires { RunGoesOn D.seen D.may_leave disk.old engine.old run }
{
    write!(out, "{stored:?}")?;
    put_dropped(disk, engine, run, out)
}

/// What becomes of a run that is given up, where the engine is open.
pub fn put_dropped<D: Disk>(
    disk: &mut D,
    engine: &mut Engine,
    run: Run,
    out: &mut String,
) -> Result<(), Stop>
    requires { RunGoesOn D.seen D.may_leave disk.old engine.old run }
{
    if !engine.is_closed() {
        let end = engine.drop_run(disk, run);
        write!(out, ", {end:?}")?;
    }
    Ok(())
}

// A command without a body.
fn accept(
    alloc: Global,
    disk: &mut Untold,
    engine: &mut Engine,
    command: Command<Body>,
    out: &mut String,
) -> Result<(), Stop>
    requires kind { IsTaken (kind_of command) }
    requires limits { IsWithinLimits command }
{
    if engine.is_old() {
        return Err(Stop::NoSuchRow);
    }
    let run = engine.begin_run(disk);
    let answer = engine.accept(alloc, disk, run, command);
    Ok(write!(out, "{answer:?}")?)
}

fn make_directory(
    alloc: Global,
    disk: &mut Untold,
    engine: &mut Engine,
    row: &Row,
    out: &mut String,
) -> Result<(), Stop> {
    let moment = moment_at(row, 2)?;
    let path = path_at(alloc, row, 1)?;
    accept(
        alloc,
        disk,
        engine,
        Command::MakeDirectory { path, moment },
        out,
    )
}

fn link(
    alloc: Global,
    disk: &mut Untold,
    engine: &mut Engine,
    row: &Row,
    out: &mut String,
) -> Result<(), Stop> {
    let moment = moment_at(row, 3)?;
    let path = path_at(alloc, row, 1)?;
    let source = path_at(alloc, row, 2)?;
    let command = Command::Link {
        path,
        source,
        moment,
    };
    accept(alloc, disk, engine, command, out)
}

fn delete(
    alloc: Global,
    disk: &mut Untold,
    engine: &mut Engine,
    row: &Row,
    out: &mut String,
) -> Result<(), Stop> {
    let moment = moment_at(row, 2)?;
    let path = path_at(alloc, row, 1)?;
    accept(alloc, disk, engine, Command::Delete { path, moment }, out)
}

/// Whether a row of this name is of this module.
pub fn answers(name: &str) -> bool {
    matches!(
        name,
        "put" | "command" | "give-up" | "texts" | "close" | "directory" | "link" | "delete"
    )
}

/// Answers a row of this module.
pub fn answer(
    alloc: Global,
    disk: &mut Untold,
    engine: &mut Engine,
    row: &Row,
    out: &mut String,
) -> Result<(), Stop> {
    match row.text(0)? {
        "put" => put(alloc, disk, engine, row, out),
        "command" => jobs::command(alloc, disk, engine, row, out),
        "give-up" => give_up(alloc, disk, engine, row, out),
        "texts" => closing::texts(alloc, disk, engine, row, out),
        "close" => closing::close(alloc, disk, engine, row, out),
        "directory" => make_directory(alloc, disk, engine, row, out),
        "link" => link(alloc, disk, engine, row, out),
        "delete" => delete(alloc, disk, engine, row, out),
        _ => Err(Stop::NoSuchRow),
    }
}
