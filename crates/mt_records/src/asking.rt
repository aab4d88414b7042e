//! What records ask for, with their paths.
ghost use Rattle.std.specs.Prelude.{◌≡◌, IfOk};
ghost use Rattle.std.specs.List.{list_any};
ghost use Rattle.mt_records.specs.Fate.{few_records, makes_output, path_in, task_record, task_records, with_output};

use crate::head::RecordHead;
use crate::range::Range;
use crate::record::RawRecord;
use mt_base::{Sequence, Text};
use mt_path::{Path, PathError};
use mt_types::{MOST_RECORDS, TaskFailure, TaskRecord, TaskRecords};
use std::alloc::{AllocError, Global};

// The path that a text names, if it names one of this account.
fn path_in(alloc: Global, login: &str, text: &Text) -> Result<Option<Path>, AllocError>
    ensures { IfOk result (λ p. p ≡ path_in login.now text.now) }
{
    match Path::plain(alloc, login, text.as_bytes()) {
        Ok(path) => Ok(Some(path)),
        Err(PathError::Memory) => Err(AllocError),
        Err(_) => Ok(None),
    }
}

// What a record asks for, if its place or name is a path.
fn task_record(
    alloc: Global,
    login: &str,
    raw: &RawRecord<Range>,
) -> Result<Result<TaskRecord<Range>, TaskFailure>, AllocError>
    ensures { IfOk result (λ r. r ≡ task_record login.now raw.now) }
{
    let body = raw.body;
    let asked = match &raw.head {
        RecordHead::Emit {
            place: None,
            reducer,
        } => Ok(TaskRecord::Emit {
            place: None,
            reducer: *reducer,
            body,
        }),
        RecordHead::Emit {
            place: Some(text),
            reducer,
        } => match path_in(alloc, login, text)? {
            Some(path) => Ok(TaskRecord::Emit {
                place: Some(path),
                reducer: *reducer,
                body,
            }),
            None => Err(TaskFailure::TaskPlaceRefused),
        },
        RecordHead::Keep { place } => match path_in(alloc, login, place)? {
            Some(place) => Ok(TaskRecord::Keep { place, body }),
            None => Err(TaskFailure::TaskPlaceRefused),
        },
        RecordHead::Ref { name } => match path_in(alloc, login, name)? {
            Some(name) => Ok(TaskRecord::Ref { name }),
            None => Err(TaskFailure::TaskObjectMissing),
        },
    };
    Ok(asked)
}

// What records ask for, or the first failure.
fn task_records(
    alloc: Global,
    login: &str,
    records: &[RawRecord<Range>],
) -> Result<Result<TaskRecords<Range>, TaskFailure>, AllocError>
    ensures { IfOk result (λ r. r ≡ task_records login.now records.now) }
{
    let mut tasks = Vec::new(alloc);
    for raw in records {
        match task_record(alloc, login, raw)? {
            Ok(task) => tasks.push(task)?,
            Err(failure) => return Ok(Err(failure)),
        }
    }
    Ok(Ok(Sequence::from_vec(tasks)))
}

// Whether a record makes an output.
fn makes_output(raw: &RawRecord<Range>) -> bool
    ensures { result ≡ makes_output raw.now }
{
    match &raw.head {
        RecordHead::Emit { .. } | RecordHead::Ref { .. } => true,
        RecordHead::Keep { .. } => false,
    }
}

// Whether one of them does.
fn has_output(records: &[RawRecord<Range>]) -> bool
    ensures { result ≡ list_any makes_output records.now }
{
    records.iter().any(|raw| makes_output(raw))
}

// Records, and standard output where none of them makes an output.
#[tactic(auto, unfolding(crate::specs::Fate::with_output))]
fn with_output(
    out: Range,
    mut records: Sequence<RawRecord<Range>>,
) -> Result<Sequence<RawRecord<Range>>, AllocError>
    ensures { IfOk result (λ rs. rs ≡ with_output out records) }
{
    if !has_output(records.as_slice()) {
        records.push(RawRecord {
            head: RecordHead::Emit {
                place: None,
                reducer: None,
            },
            body: out,
        })?;
    }
    Ok(records)
}

/// What records and standard output ask for, or the first failure: too many records, and then places and names.
pub(crate) fn few_records(
    alloc: Global,
    login: &str,
    out: Range,
    records: Sequence<RawRecord<Range>>,
) -> Result<Result<TaskRecords<Range>, TaskFailure>, AllocError>
    ensures { IfOk result (λ r. r ≡ few_records login.now (with_output out records)) }
{
    let records = with_output(out, records)?;
    if records.len() > MOST_RECORDS {
        return Ok(Err(TaskFailure::TaskRecordError));
    }
    task_records(alloc, login, records.as_slice())
}
