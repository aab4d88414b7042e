//! How much what a task left adds to a log, by the lengths that are told; and values without bodies, of which alone sizes are asked.
ghost use Rattle.std.specs.Prelude.{◌≡◌, ◌+◌, IfOk, map};
ghost use Rattle.std.specs.List.{sum_by};
ghost use Rattle.mt_body.specs.Stored.{pieces_size};
ghost use Rattle.mt_tasks.specs.Sizes.{blank, fate_size, record_size};
ghost use Rattle.mt_types.specs.Values.{record_with};

use mt_base::{Duplicate, Sequence};
use mt_records::Range;
use mt_types::{Body, Fate, TaskRecord, TaskRecords};
use std::alloc::{AllocError, Global};

/// A body that stands for any, where sizes alone are asked.
pub(crate) const NO_BODY: Body = Body {
    first: 0,
    len: 0,
    md5: [0; 16],
};

// A sum; one that is not below 2 ^ 64 counts as want of memory, since none holds so much.
fn sum(a: u64, b: u64) -> Result<u64, AllocError>
    ensures { IfOk result (λ n. n ≡ a + b) }
{
    match a.checked_add(b) {
        Some(sum) => Ok(sum),
        None => Err(AllocError),
    }
}

// How much the pieces of a body of so many bytes add to a log.
fn pieces_len(len: u64) -> Result<u64, AllocError>
    ensures { IfOk result (λ n. n ≡ pieces_size len) }
{
    let rounded = sum(len, 65_535)?;
    sum(len, 22 * (rounded / 65_536))
}

// The pieces of the body of a record.
fn record_len(record: &TaskRecord<Range>) -> Result<u64, AllocError>
    ensures { IfOk result (λ n. n ≡ record_size record.now) }
{
    match record {
        TaskRecord::Emit { body, .. } => pieces_len(body.len),
        TaskRecord::Keep { body, .. } => pieces_len(body.len),
        TaskRecord::Ref { .. } => Ok(0),
    }
}

// Those of all records.
fn records_len(records: &[TaskRecord<Range>]) -> Result<u64, AllocError>
    ensures { IfOk result (λ n. n ≡ sum_by record_size records.now) }
{
    let mut total = 0;
    for record in records {
        total = sum(total, record_len(record)?)?;
    }
    Ok(total)
}

/// How much the pieces of the bodies of a fate add to a log. No memory is taken: the error says that the number is not below 2 ^ 64.
pub(crate) fn fate_len(fate: &Fate<Range>) -> Result<u64, AllocError>
    ensures { IfOk result (λ n. n ≡ fate_size fate.now) }
{
    match fate {
        Fate::Good(records) => records_len(records.as_slice()),
        Fate::Bad { .. } => Ok(0),
    }
}

// A record without a body.
fn blank_record(alloc: Global, record: &TaskRecord<Range>) -> Result<TaskRecord<Body>, AllocError>
    ensures { IfOk result (λ r. r ≡ record_with (λ b. NO_BODY) record.now) }
{
    match record {
        TaskRecord::Emit { place, reducer, .. } => Ok(TaskRecord::Emit {
            place: place.copy(alloc)?,
            reducer: *reducer,
            body: NO_BODY,
        }),
        TaskRecord::Keep { place, .. } => Ok(TaskRecord::Keep {
            place: place.copy(alloc)?,
            body: NO_BODY,
        }),
        TaskRecord::Ref { name } => Ok(TaskRecord::Ref {
            name: name.copy(alloc)?,
        }),
    }
}

// Records without bodies.
fn blank_records(
    alloc: Global,
    records: &[TaskRecord<Range>],
) -> Result<TaskRecords<Body>, AllocError>
    ensures { IfOk result (λ rs. rs ≡ map (record_with (λ b. NO_BODY)) records.now) }
{
    let mut blanks = Vec::with_capacity(alloc, records.len())?;
    for record in records {
        blanks.push(blank_record(alloc, record)?)?;
    }
    Ok(Sequence::from_vec(blanks))
}

/// A fate without bodies, over copies of its paths.
pub(crate) fn blank_fate(alloc: Global, fate: &Fate<Range>) -> Result<Fate<Body>, AllocError>
    ensures { IfOk result (λ f. f ≡ blank fate.now) }
{
    match fate {
        Fate::Good(records) => Ok(Fate::Good(blank_records(alloc, records.as_slice())?)),
        Fate::Bad {
            failure,
            status,
            stderr,
        } => Ok(Fate::Bad {
            failure: *failure,
            status: *status,
            stderr: stderr.copy(alloc)?,
        }),
    }
}
