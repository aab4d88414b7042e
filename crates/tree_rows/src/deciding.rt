//! What may be done, and what a reader finds.
use crate::listing;
use crate::words::{conditions_from, path_at};
use mt_rows::{Row, Stop};
use mt_store::{Found, StoreError, may_delete, may_link, may_put, read_object};
use mt_tree::{Refusal, Tree};
use mt_types::Object;
use std::alloc::{AllocError, Global};

/// Answers a row of this module, or else of the next.
pub fn answer(alloc: Global, tree: &Tree<u64>, row: &Row, out: &mut String) -> Result<(), Stop> {
    match row.text(0)? {
        "may" => put_tests(alloc, tree, row, out),
        "writes" => put_writes(alloc, tree, row, out),
        "link" => put_link(alloc, tree, row, out),
        "read" => put_read(alloc, tree, row, out),
        _ => listing::answer(alloc, tree, row, out),
    }
}

fn put_link(alloc: Global, tree: &Tree<u64>, row: &Row, out: &mut String) -> Result<(), Stop> {
    let path = path_at(alloc, row, 1)?;
    let source = path_at(alloc, row, 2)?;
    let conditions = conditions_from(alloc, row, 3)?;
    Ok(put_decision(may_link(tree, &path, &source, &conditions), out)?)
}

fn put_read(alloc: Global, tree: &Tree<u64>, row: &Row, out: &mut String) -> Result<(), Stop> {
    let path = path_at(alloc, row, 1)?;
    let conditions = conditions_from(alloc, row, 2)?;
    Ok(put_found(read_object(tree, &path, &conditions), out)?)
}

fn put_found(
    found: Result<Found<&Object<u64>>, StoreError>,
    out: &mut String,
) -> Result<(), AllocError> {
    match found {
        Ok(Found::Directory) => out.push_str("Directory"),
        Ok(Found::Object(object)) => write!(out, "Object {}", object.number),
        Ok(Found::NotModified(object)) => write!(out, "NotModified {}", object.number),
        Err(error) => write!(out, "{error:?}"),
    }
}

// Whether an object may be put at a path, a directory be made there, and the row be removed, by the tree alone.
fn put_tests(alloc: Global, tree: &Tree<u64>, row: &Row, out: &mut String) -> Result<(), Stop> {
    let path = path_at(alloc, row, 1)?;
    out.push_str("put ")?;
    put_answer(tree.may_put(&path), out)?;
    out.push_str(", make ")?;
    put_answer(tree.may_make_directory(&path), out)?;
    out.push_str(", remove ")?;
    Ok(put_answer(tree.may_remove(&path), out)?)
}

fn put_answer(answer: Result<(), Refusal>, out: &mut String) -> Result<(), AllocError> {
    match answer {
        Ok(()) => out.push_str("Ok"),
        Err(refusal) => write!(out, "{refusal:?}"),
    }
}

// Whether an object may be put at a path, and what stands there be removed, under conditions.
fn put_writes(alloc: Global, tree: &Tree<u64>, row: &Row, out: &mut String) -> Result<(), Stop> {
    let path = path_at(alloc, row, 1)?;
    let conditions = conditions_from(alloc, row, 2)?;
    out.push_str("put ")?;
    put_decision(may_put(tree, &path, &conditions), out)?;
    out.push_str(", delete ")?;
    Ok(put_decision(may_delete(tree, &path, &conditions), out)?)
}

fn put_decision(answer: Result<(), StoreError>, out: &mut String) -> Result<(), AllocError> {
    match answer {
        Ok(()) => out.push_str("Ok"),
        Err(StoreError::Refused(refusal)) => write!(out, "{refusal:?}"),
        Err(StoreError::PreconditionFailed) => out.push_str("PreconditionFailed"),
    }
}
