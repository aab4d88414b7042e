//! What the words of a row stand for. The login is `l`.
ghost use Rattle.std.specs.Prelude.{◌<◌, IfOk, IfSome};
ghost use Rattle.std.specs.List.{AllByRecursion};
ghost use Rattle.mt_path.specs.AccountPath.{IsPath};
ghost use Rattle.mt_types.specs.WellMade.{IsDocument, IsWellMadeFate, IsWellMadeLine, IsWellMadeRecord};

use crate::account::body;
use mt_jobdoc::{documents_are_documents, read};
use mt_rows::{Row, Stop};
use mt_types::{
    Body, Bytes, Fate, InputLine, JobDocument, MOST_RECORDS, Path, Sequence, Task, TaskFailure,
    TaskRecord, Text,
};
use std::alloc::{AllocError, Global};

/// So many lines are posted at once at most.
const MOST_LINES: u64 = 1_000_001;

/// A number that fits.
pub fn narrow(number: u64) -> Result<u32, Stop> {
    if number < 1 << 32 {
        Ok(number as u32)
    } else {
        Err(Stop::NoSuchRow)
    }
}

/// The path of a text.
pub fn path_of(alloc: Global, text: &[u8]) -> Result<Path, Stop>
    ensures { IfOk result IsPath }
{
    match Path::plain(alloc, "l", text) {
        Ok(path) => {
            let _key = path.key();
            Ok(path)
        }
        Err(_) => Err(Stop::NoSuchRow),
    }
}

/// The path of a word.
pub fn path_at(alloc: Global, row: &Row, place: usize) -> Result<Path, Stop>
    ensures { IfOk result IsPath }
{
    path_of(alloc, row.bytes(place)?)
}

/// The task that three words from a place on name.
pub fn task_at(row: &Row, place: usize) -> Result<Task, Stop> {
    if place >= 1 << 32 {
        return Err(Stop::NoSuchRow);
    }
    Ok(Task {
        job: row.number(place)?,
        phase: narrow(row.number(place + 1)?)?,
        place: row.number(place + 2)?,
    })
}

/// The tasks of three words each from the second word on.
pub fn tasks(alloc: Global, row: &Row) -> Result<Vec<Task>, Stop> {
    let mut tasks = Vec::new(alloc);
    for place in (1..row.len()).step_by(3) {
        tasks.push(task_at(row, place)?)?;
    }
    Ok(tasks)
}

/// A job document, as JSON.
pub fn document(alloc: Global, row: &Row) -> Result<JobDocument, Stop>
    ensures { IfOk result IsDocument }
{
    documents_are_documents();
    match read(alloc, "l", row.bytes(1)?) {
        Ok(document) => Ok(document),
        Err(_) => Err(Stop::NoSuchRow),
    }
}

/// A job of one map phase.
pub fn simple_document(alloc: Global) -> Result<JobDocument, Stop>
    ensures { IfOk result IsDocument }
{
    documents_are_documents();
    match read(alloc, "l", b"{\"phases\":[{\"exec\":\"x\"}]}") {
        Ok(document) => Ok(document),
        Err(_) => Err(Stop::NoSuchRow),
    }
}

// A line: a path of this account, or any other text.
fn line(alloc: Global, text: &str) -> Result<InputLine, AllocError>
    ensures { IfOk result IsWellMadeLine }
{
    match Path::plain(alloc, "l", text.as_bytes()) {
        Ok(path) => {
            let _key = path.key();
            Ok(InputLine::Named(path))
        }
        Err(_) => Ok(InputLine::Other(Text::from_str(alloc, text)?)),
    }
}

/// The lines from the third word on.
pub fn lines(alloc: Global, row: &Row) -> Result<Vec<InputLine>, Stop>
    ensures { IfOk result (λ v. AllByRecursion IsWellMadeLine v.items) }
{
    let mut lines = Vec::new(alloc);
    for place in 2..row.len() {
        lines.push(line(alloc, row.text(place)?)?)?;
    }
    Ok(lines)
}

/// So many lines that name nothing.
pub fn many_lines(alloc: Global, count: u64) -> Result<Vec<InputLine>, Stop>
    ensures { IfOk result (λ v. AllByRecursion IsWellMadeLine v.items) }
{
    let mut lines = Vec::new(alloc);
    for _ in 0..count.min(MOST_LINES) {
        lines.push(line(alloc, "x")?)?;
    }
    Ok(lines)
}

// A path, or none for a dash.
fn place(alloc: Global, row: &Row, word: usize) -> Result<Option<Path>, Stop>
    ensures { IfOk result (λ p. IfSome p IsPath) }
{
    if row.text(word)? == "-" {
        return Ok(None);
    }
    Ok(Some(path_at(alloc, row, word)?))
}

// A reducer, or none for a dash.
fn reducer(row: &Row, word: usize) -> Result<Option<u32>, Stop> {
    if row.text(word)? == "-" {
        return Ok(None);
    }
    Ok(Some(narrow(row.number(word)?)?))
}

// `emit PLACE REDUCER LENGTH`
fn emit(alloc: Global, row: &Row, word: usize) -> Result<TaskRecord<Body>, Stop>
    requires { word < 1000000 }
    ensures { IfOk result IsWellMadeRecord }
{
    let body = body(row.number(word + 3)?);
    let reducer = reducer(row, word + 2)?;
    let place = place(alloc, row, word + 1)?;
    Ok(TaskRecord::Emit {
        place,
        reducer,
        body,
    })
}

// `keep PLACE - LENGTH`
fn keep(alloc: Global, row: &Row, word: usize) -> Result<TaskRecord<Body>, Stop>
    requires { word < 1000000 }
    ensures { IfOk result IsWellMadeRecord }
{
    let body = body(row.number(word + 3)?);
    let place = path_at(alloc, row, word + 1)?;
    Ok(TaskRecord::Keep { place, body })
}

// `ref NAME - -`
fn refer(alloc: Global, row: &Row, word: usize) -> Result<TaskRecord<Body>, Stop>
    requires { word < 1000000 }
    ensures { IfOk result IsWellMadeRecord }
{
    let name = path_at(alloc, row, word + 1)?;
    Ok(TaskRecord::Ref { name })
}

// The record that four words from a place on name.
fn record(alloc: Global, row: &Row, word: usize) -> Result<TaskRecord<Body>, Stop>
    requires { word < 1000000 }
    ensures { IfOk result IsWellMadeRecord }
{
    match row.text(word)? {
        "emit" => emit(alloc, row, word),
        "keep" => keep(alloc, row, word),
        "ref" => refer(alloc, row, word),
        _ => Err(Stop::NoSuchRow),
    }
}

/// The records from the fifth word on.
pub fn good(alloc: Global, row: &Row) -> Result<Fate<Body>, Stop>
    ensures { IfOk result IsWellMadeFate }
{
    let count = row.len() / 4;
    if count > MOST_RECORDS {
        return Err(Stop::NoSuchRow);
    }
    let mut records = Vec::new(alloc);
    for k in 1..count {
        records.push(record(alloc, row, 4 * k)?)?;
    }
    Ok(Fate::Good(Sequence::from_vec(records)))
}

/// So many outputs of a byte each, without a place.
pub fn outputs(alloc: Global, count: usize) -> Result<Fate<Body>, Stop>
    ensures { IfOk result IsWellMadeFate }
{
    if count > MOST_RECORDS {
        return Err(Stop::NoSuchRow);
    }
    let mut records = Vec::new(alloc);
    for _k in 0..count {
        records.push(TaskRecord::Emit {
            place: None,
            reducer: None,
            body: body(1),
        })?;
    }
    Ok(Fate::Good(Sequence::from_vec(records)))
}

/// A task that ended with the status of the fifth word.
pub fn bad(alloc: Global, row: &Row) -> Result<Fate<Body>, Stop>
    ensures { IfOk result IsWellMadeFate }
{
    let status = narrow(row.number(4)?)?;
    let stderr = Bytes::from_slice(alloc, b"")?;
    Ok(Fate::Bad {
        failure: TaskFailure::UserTaskError,
        status,
        stderr,
    })
}
