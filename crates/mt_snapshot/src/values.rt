//! Rows, items, committed tasks and uploads, read from a cursor.
ghost use Rattle.std.specs.Prelude.{◌≡◌, Some, None, if◌then◌else◌};
ghost use Rattle.std.specs.Int.{w16};
ghost use Rattle.std.specs.Str.{is_utf8};
ghost use Rattle.mt_codec.specs.Reading.{Gives, Makes, byte_at, named, times};
ghost use Rattle.mt_snapshot.specs.Records.{is_output_root, is_part_count};
ghost use Rattle.mt_snapshot.specs.Readers.{bad_at, entry_at, good_at, item_at, object_at, outcome_at, part_at, root_at, row_at, stage_numbered, trace_at, upload_at};

use crate::limits::{LONGEST_ROOT, MOST_PARTS};
use crate::record::UploadRecord;
use mt_bytes::Cursor;
use mt_codec::DecodeError;
use mt_codec::fields::{
    body, byte, content_type, durability, eight, failure, four, index, metadata, moment, path,
    reducer, short_piece, stderr, two,
};
use mt_path::is_component;
use mt_types::{
    Body, Entry, Item, Items, MOST_RECORDS, Object, Outcome, PartRow, Row, Stage, Text, TraceEntry,
};
use std::alloc::Global;
use std::str;

// An object.
#[tactic(auto, unfolding(crate::specs::Readers::object_at))]
fn object(alloc: Global, cursor: &mut Cursor) -> Result<Object<Body>, DecodeError>
    ensures { Gives result cursor.new (object_at cursor.old) }
{
    let number = eight(cursor)?;
    let mtime = moment(cursor)?;
    let content_type = content_type(alloc, cursor)?;
    let durability = durability(cursor)?;
    let metadata = metadata(alloc, cursor)?;
    let body = body(cursor)?;
    Ok(Object {
        number,
        body,
        content_type,
        durability,
        metadata,
        mtime,
    })
}

// What stands at a path.
#[tactic(auto, unfolding(crate::specs::Readers::entry_at))]
fn entry(alloc: Global, cursor: &mut Cursor) -> Result<Entry<Body>, DecodeError>
    ensures { Gives result cursor.new (entry_at cursor.old) }
{
    match byte(cursor)? {
        0 => Ok(Entry::Directory {
            mtime: moment(cursor)?,
        }),
        1 => Ok(Entry::Object(object(alloc, cursor)?)),
        _ => Err(DecodeError::NotACommand),
    }
}

/// A row.
#[tactic(auto, unfolding(crate::specs::Readers::row_at))]
pub fn row(alloc: Global, cursor: &mut Cursor) -> Result<Row<Body>, DecodeError>
    ensures { Gives result cursor.new (row_at cursor.old) }
{
    let path = path(alloc, cursor)?;
    let entry = entry(alloc, cursor)?;
    Ok(Row { path, entry })
}

// A copy of bytes that are UTF-8.
fn text_of(alloc: Global, piece: &[u8]) -> Result<Text, DecodeError>
    ensures { Makes result (if is_utf8 piece.now then Some piece.now else None) }
{
    match str::from_utf8(piece) {
        Ok(text) => Ok(Text::from_str(alloc, text)?),
        Err(_) => Err(DecodeError::NotACommand),
    }
}

// Whether outputs' names may begin so.
fn is_output_root(name: &[u8]) -> bool
    ensures { result ≡ is_output_root name.now }
{
    name.len() <= LONGEST_ROOT && is_component(name)
}

// What outputs' names begin with.
fn root(alloc: Global, cursor: &mut Cursor) -> Result<Text, DecodeError>
    ensures { Gives result cursor.new (root_at cursor.old) }
{
    let piece = short_piece(cursor)?;
    if !is_output_root(piece) {
        return Err(DecodeError::NotACommand);
    }
    text_of(alloc, piece)
}

/// An item.
#[tactic(auto, unfolding(crate::specs::Readers::item_at))]
pub fn item(alloc: Global, cursor: &mut Cursor) -> Result<Item<Body>, DecodeError>
    ensures { Gives result cursor.new (item_at cursor.old) }
{
    let name = path(alloc, cursor)?;
    let root = root(alloc, cursor)?;
    let reducer = reducer(cursor)?;
    let body = body(cursor)?;
    Ok(Item {
        name,
        root,
        body,
        reducer,
    })
}

// So many items.
fn items(alloc: Global, n: usize, cursor: &mut Cursor) -> Result<Items<Body>, DecodeError>
    ensures { Gives result cursor.new (times item_at n cursor.old) }
{
    let mut items = Items::new(alloc);
    for _ in 0..n {
        items.push(item(alloc, cursor)?)?;
    }
    Ok(items)
}

// The outputs of a task that did well.
fn good(alloc: Global, cursor: &mut Cursor) -> Result<Outcome<Body>, DecodeError>
    ensures { Gives result cursor.new (good_at cursor.old) }
{
    let n = two(cursor)? as usize;
    if n > MOST_RECORDS {
        return Err(DecodeError::NotACommand);
    }
    Ok(Outcome::Good(items(alloc, n, cursor)?))
}

// How a task failed.
fn bad(alloc: Global, cursor: &mut Cursor) -> Result<Outcome<Body>, DecodeError>
    ensures { Gives result cursor.new (bad_at cursor.old) }
{
    let failure = failure(cursor)?;
    let status = four(cursor)?;
    let stderr = stderr(alloc, cursor)?;
    Ok(Outcome::Bad {
        failure,
        status,
        stderr,
    })
}

// What a committed task came to.
#[tactic(auto, unfolding(crate::specs::Readers::outcome_at))]
fn outcome(alloc: Global, cursor: &mut Cursor) -> Result<Outcome<Body>, DecodeError>
    ensures { Gives result cursor.new (outcome_at cursor.old) }
{
    match byte(cursor)? {
        0 => good(alloc, cursor),
        1 => bad(alloc, cursor),
        _ => Err(DecodeError::NotACommand),
    }
}

/// A committed task.
#[tactic(auto, unfolding(crate::specs::Readers::trace_at))]
pub fn trace(alloc: Global, cursor: &mut Cursor) -> Result<TraceEntry<Body>, DecodeError>
    ensures { Gives result cursor.new (trace_at cursor.old) }
{
    let phase = four(cursor)?;
    let place = eight(cursor)?;
    let position = eight(cursor)?;
    let outcome = outcome(alloc, cursor)?;
    Ok(TraceEntry {
        phase,
        place,
        position,
        outcome,
    })
}

// How far an upload has come.
fn stage(cursor: &mut Cursor) -> Result<Stage, DecodeError>
    ensures { Gives result cursor.new (named stage_numbered byte_at cursor.old) }
{
    match byte(cursor)? {
        0 => Ok(Stage::Open),
        1 => Ok(Stage::Committed),
        2 => Ok(Stage::Aborted),
        _ => Err(DecodeError::NotACommand),
    }
}

// Whether an upload that has come so far may have so many parts.
fn is_part_count(stage: Stage, n: u16) -> bool
    ensures { result ≡ is_part_count stage n }
{
    match stage {
        Stage::Open => n <= MOST_PARTS,
        Stage::Committed => n == 0,
        Stage::Aborted => n == 0,
    }
}

/// An upload, but its parts.
#[tactic(auto, unfolding(crate::specs::Readers::upload_at))]
pub fn upload(alloc: Global, cursor: &mut Cursor) -> Result<UploadRecord, DecodeError>
    ensures { Gives result cursor.new (upload_at cursor.old) }
{
    let number = eight(cursor)?;
    let path = path(alloc, cursor)?;
    let content_type = content_type(alloc, cursor)?;
    let moment = moment(cursor)?;
    let stage = stage(cursor)?;
    let parts = two(cursor)?;
    if !is_part_count(stage, parts) {
        return Err(DecodeError::NotACommand);
    }
    Ok(UploadRecord {
        number,
        path,
        content_type,
        moment,
        stage,
        parts,
    })
}

/// A part of an upload.
#[tactic(auto, unfolding(crate::specs::Readers::part_at))]
pub fn part(cursor: &mut Cursor) -> Result<PartRow<Body>, DecodeError>
    ensures { Gives result cursor.new (part_at cursor.old) }
{
    let index = index(cursor)?;
    let number = eight(cursor)?;
    let body = body(cursor)?;
    Ok(PartRow {
        index,
        number,
        body,
    })
}
