//! Records, read from bytes.
ghost use Rattle.std.specs.Prelude.{◌≡◌, ◌≢◌, ◌∷◌, Some, true, IfOk, IsErrOf};
ghost use Rattle.mt_types.specs.declared.body.Body.{Body};
ghost use Rattle.mt_codec.specs.Reading.{Gives, Makes};
ghost use Rattle.mt_snapshot.specs.declared.record.SnapshotRecord.{SnapshotRecord};
ghost use Rattle.mt_snapshot.specs.Records.{FitsSnapshot, SpellsRecord, snapshot_spelling, undigested_snapshot};
ghost use Rattle.mt_snapshot.specs.Readers.{begin_at, later_record_at, record_at, whole_record};

use crate::jobs::job;
use crate::record::SnapshotRecord;
use crate::values::{item, part, row, trace, upload};
use mt_bytes::Cursor;
use mt_codec::DecodeError;
use mt_codec::fields::{byte, eight, line};
use mt_types::{Body, MOST_COMMANDS};
use std::alloc::Global;

/// The record that the bytes spell, with sixteen zero bytes in the place of each body's digest. It takes
/// memory in proportion to the bytes, whatever numbers stand in them.
///
/// # Errors
///
/// `NotACommand` where no record is spelled so, `Memory` where memory is wanting.
pub fn read_record(alloc: Global, bytes: &[u8]) -> Result<SnapshotRecord<Body>, DecodeError>
    // What is read is spelled so, each byte of it.
    ensures found { IfOk result (λ r. SpellsRecord bytes.now r) }
    // What is spelled so is read, unless memory is wanting.
    ensures only { (r : SnapshotRecord Body) → FitsSnapshot true r → bytes.now ≡ snapshot_spelling r
        → Makes result (Some (undigested_snapshot r)) }
    // Bytes are refused where no record is spelled so.
    ensures none { IsErrOf result DecodeError.NotACommand → (r : SnapshotRecord Body) → FitsSnapshot true r
        → bytes.now ≢ snapshot_spelling r }
{
    whole(alloc, bytes)
}

// A record, and nothing behind it.
#[tactic(auto, unfolding(crate::specs::Readers::whole_record))]
fn whole(alloc: Global, bytes: &[u8]) -> Result<SnapshotRecord<Body>, DecodeError>
    ensures { Makes result (whole_record bytes.now) }
{
    let mut cursor = Cursor::new(bytes);
    let mark = byte(&mut cursor)?;
    let record = record(alloc, mark, &mut cursor)?;
    if !cursor.at_end() {
        return Err(DecodeError::NotACommand);
    }
    Ok(record)
}

// A record behind its first byte.
#[tactic(auto, unfolding(crate::specs::Readers::record_at))]
fn record(alloc: Global, mark: u8, cursor: &mut Cursor) -> Result<SnapshotRecord<Body>, DecodeError>
    ensures { Gives result cursor.new (record_at (mark ∷ cursor.old)) }
{
    match mark {
        64 => begin(cursor),
        65 => Ok(SnapshotRecord::Row(row(alloc, cursor)?)),
        66 => Ok(SnapshotRecord::Job(job(alloc, cursor)?)),
        67 => Ok(SnapshotRecord::Input(item(alloc, cursor)?)),
        68 => Ok(SnapshotRecord::Missing(line(alloc, cursor)?)),
        _ => later_record(alloc, mark, cursor),
    }
}

// One of the other records behind its first byte.
#[tactic(auto, unfolding(crate::specs::Readers::later_record_at))]
fn later_record(
    alloc: Global,
    mark: u8,
    cursor: &mut Cursor,
) -> Result<SnapshotRecord<Body>, DecodeError>
    ensures { Gives result cursor.new (later_record_at (mark ∷ cursor.old)) }
{
    match mark {
        69 => Ok(SnapshotRecord::Entry(trace(alloc, cursor)?)),
        71 => Ok(SnapshotRecord::End),
        72 => Ok(SnapshotRecord::Upload(upload(alloc, cursor)?)),
        73 => Ok(SnapshotRecord::Part(part(cursor)?)),
        _ => Err(DecodeError::NotACommand),
    }
}

// How much follows.
#[tactic(auto, unfolding(crate::specs::Readers::begin_at))]
fn begin(cursor: &mut Cursor) -> Result<SnapshotRecord<Body>, DecodeError>
    ensures { Gives result cursor.new (begin_at cursor.old) }
{
    let count = eight(cursor)?;
    if count > MOST_COMMANDS {
        return Err(DecodeError::NotACommand);
    }
    let rows = eight(cursor)?;
    let jobs = eight(cursor)?;
    let uploads = eight(cursor)?;
    Ok(SnapshotRecord::Begin {
        count,
        rows,
        jobs,
        uploads,
    })
}
