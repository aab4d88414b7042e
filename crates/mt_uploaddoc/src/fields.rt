//! What stands in the documents of uploads.
ghost use Rattle.std.specs.Prelude.{◌≡◌, IfOk, map, option_map};
ghost use Rattle.serde_json.specs.View.{view};
ghost use Rattle.mt_uploaddoc.specs.Documents.{few_numbers, number_in, numbers_in, part_list, path_in, path_named, type_in};

use crate::document::MOST_PARTS;
use mt_base::{Sequence, Text};
use mt_ident::uuid_number;
use mt_path::{Path, PathError};
use mt_types::{PartNumbers, is_content_type};
use serde_json::Value;
use std::alloc::{AllocError, Global};

/// The content type of an object whose upload names none.
const USUAL_TYPE: &str = "application/octet-stream";

/// The kind of the identifiers of objects and parts.
const OBJECT: u8 = 1;

/// No part has this number: all are below 2^62.
const NO_PART: u64 = u64::MAX;

// The path that a value names, if it names one.
fn named(alloc: Global, login: &str, value: &Value) -> Result<Option<Path>, AllocError>
    ensures { IfOk result (λ p. p ≡ path_named login.now (view value.now)) }
{
    let Some(text) = value.as_str() else {
        return Ok(None);
    };
    match Path::plain(alloc, login, text.as_bytes()) {
        Ok(path) => Ok(Some(path)),
        Err(PathError::Memory) => Err(AllocError),
        Err(_) => Ok(None),
    }
}

/// Where the object is to stand; none where no path of this account is named.
pub fn object_path(alloc: Global, login: &str, object: &Value) -> Result<Option<Path>, AllocError>
    ensures { IfOk result (λ p. p ≡ path_in login.now (view object.now)) }
{
    match object.get("objectPath") {
        Some(value) => named(alloc, login, value),
        None => Ok(None),
    }
}

/// The content type of the object; none where it is no content type.
pub fn content_type(alloc: Global, object: &Value) -> Result<Option<Text>, AllocError>
    ensures { IfOk result (λ t. t ≡ type_in (view object.now)) }
{
    let Some(value) = object.get("contentType") else {
        return Ok(Some(Text::from_str(alloc, USUAL_TYPE)?));
    };
    match value.as_str() {
        Some(text) if is_content_type(text.as_bytes()) => Ok(Some(Text::from_str(alloc, text)?)),
        _ => Ok(None),
    }
}

/// The values that stand as the parts of a commit; none where there is no list.
pub fn part_values(object: &Value) -> Option<&[Value]>
    ensures { option_map (λ values. map view values.now) result ≡ part_list (view object.now) }
{
    match object.get("parts")?.as_array() {
        Some(values) => Some(values.as_slice()),
        None => None,
    }
}

// The number of the part whose etag a value is; none where it is no text.
fn number(value: &Value) -> Option<u64>
    ensures { result ≡ number_in (view value.now) }
{
    match value.as_str() {
        Some(text) => Some(uuid_number(OBJECT, text.as_bytes()).unwrap_or(NO_PART)),
        None => None,
    }
}

// The numbers of these, if each is a text.
fn numbers(alloc: Global, values: &[Value]) -> Result<Option<PartNumbers>, AllocError>
    ensures { IfOk result (λ ns. ns ≡ numbers_in (map view values.now)) }
{
    let mut numbers = Vec::new(alloc);
    for value in values {
        let Some(number) = number(value) else {
            return Ok(None);
        };
        numbers.push(number)?;
    }
    Ok(Some(Sequence::from_vec(numbers)))
}

/// The numbers of these, where they are not too many.
pub fn part_numbers(alloc: Global, values: &[Value]) -> Result<Option<PartNumbers>, AllocError>
    ensures { IfOk result (λ ns. ns ≡ few_numbers (map view values.now)) }
{
    if values.len() <= MOST_PARTS {
        numbers(alloc, values)
    } else {
        Ok(None)
    }
}
