//! The calls of `mt_cond`.
use crate::{identifiers, put_shown};
use mt_cond::{Conditions, Range, judge, range_of};
use mt_rows::{Row, Stop};
use mt_types::{Bytes, Field, Fields, Object, Sequence, Text};
use std::alloc::{AllocError, Global};

/// Answers a row of this module, or else of the next.
pub fn answer(alloc: Global, row: &Row, out: &mut String) -> Result<(), Stop> {
    match row.text(0)? {
        "judge" => put_verdicts(alloc, row, out),
        "judge-read" => put_verdict(alloc, row, out),
        "conditions" => put_conditions(alloc, row, out),
        "tags" => put_tags(alloc, row, out),
        "range" => put_range(alloc, row, out),
        _ => identifiers::answer(alloc, row, out),
    }
}

fn conditions_from(alloc: Global, row: &Row, from: usize) -> Result<Conditions, Stop> {
    let fields = fields_from(alloc, row, from)?;
    Ok(Conditions::read(alloc, &fields)?)
}

fn put_conditions(alloc: Global, row: &Row, out: &mut String) -> Result<(), Stop> {
    let conditions = conditions_from(alloc, row, 1)?;
    put_shown(out, &conditions)
}

// The fields whose names and values stand from a place on.
fn fields_from(alloc: Global, row: &Row, from: usize) -> Result<Fields, Stop> {
    let mut fields = Sequence::new(alloc);
    for place in (from..row.len()).step_by(2) {
        fields.push(field_of(alloc, row.text(place)?, row.bytes(place.wrapping_add(1))?)?)?;
    }
    Ok(fields)
}

fn field_of(alloc: Global, name: &str, value: &[u8]) -> Result<Field, AllocError> {
    let name = Text::from_str(alloc, name)?;
    let value = Bytes::from_slice(alloc, value)?;
    Ok(Field { name, value })
}

// The tags of If-Match fields with these values.
fn put_tags(alloc: Global, row: &Row, out: &mut String) -> Result<(), Stop> {
    let mut fields = Sequence::new(alloc);
    for place in 1..row.len() {
        fields.push(field_of(alloc, "if-match", row.bytes(place)?)?)?;
    }
    let conditions = Conditions::read(alloc, &fields)?;
    put_shown(out, &conditions.if_match)
}

// The object of this number and this moment; its body is no matter.
fn object_of(alloc: Global, row: &Row) -> Result<Object<u8>, Stop> {
    let number = row.number(1)?;
    let mtime = row.number(2)?;
    Ok(Object {
        number,
        body: 0,
        content_type: Text::from_str(alloc, "text/plain")?,
        durability: None,
        metadata: Sequence::new(alloc),
        mtime,
    })
}

// What a read of an object, a write over it, and a write where none is are told.
fn put_verdicts(alloc: Global, row: &Row, out: &mut String) -> Result<(), Stop> {
    let object = object_of(alloc, row)?;
    let conditions = conditions_from(alloc, row, 3)?;
    let read = judge(&conditions, Some(&object), true);
    let write = judge(&conditions, Some(&object), false);
    let none: Option<&Object<u8>> = None;
    let anew = judge(&conditions, none, false);
    Ok(write!(out, "read {read:?}, write {write:?}, anew {anew:?}")?)
}

// What a read of an object is told.
fn put_verdict(alloc: Global, row: &Row, out: &mut String) -> Result<(), Stop> {
    let object = object_of(alloc, row)?;
    let conditions = conditions_from(alloc, row, 3)?;
    put_shown(out, &judge(&conditions, Some(&object), true))
}

// The range that fields ask for, and what it gets of an object of this length.
fn put_range(alloc: Global, row: &Row, out: &mut String) -> Result<(), Stop> {
    let len = row.number(1)?;
    let fields = fields_from(alloc, row, 2)?;
    match Range::read(&fields) {
        Some(range) => Ok(write!(out, "{:?}: {:?}", range, range_of(&range, len))?),
        None => Ok(out.push_str("None")?),
    }
}
