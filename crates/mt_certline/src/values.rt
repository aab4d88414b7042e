//! Values of a line.
ghost use Rattle.std.specs.Prelude.{◌≡◌, IfOk};
ghost use Rattle.serde_json.specs.View.{view};
ghost use Rattle.mt_certline.specs.Read.{digest_in, digest_of, field, has_members, item_in, path_in, path_named, reducer_in, root_in, whole_in};

use crate::limits::LONGEST_ROOT;
use crate::line::Sum;
use mt_base::Text;
use mt_ident::md5_read;
use mt_path::{Path, PathError, is_component};
use mt_types::Item;
use serde_json::Value;
use std::alloc::{AllocError, Global};

/// Whether a value is an object of so many members.
pub fn has_members(value: &Value, count: usize) -> bool
    ensures { result ≡ has_members count (view value.now) }
{
    match value.as_object() {
        Some(members) => members.len() == count,
        None => false,
    }
}

/// A whole number below 2^64, in digits alone.
pub fn whole_at(object: &Value, key: &str) -> Option<u64>
    ensures { result ≡ field key.now whole_in (view object.now) }
{
    match object.get(key) {
        Some(value) => value.as_u64(),
        None => None,
    }
}

// The digest whose text this is.
fn digest(text: &[u8]) -> Option<[u8; 16]>
    ensures { result ≡ digest_of text.now }
{
    md5_read(text)
}

// A digest as a text.
fn digest_at(object: &Value, key: &str) -> Option<[u8; 16]>
    ensures { result ≡ field key.now digest_in (view object.now) }
{
    match object.get(key) {
        Some(value) => match value.as_str() {
            Some(text) => digest(text.as_bytes()),
            None => None,
        },
        None => None,
    }
}

// The path whose printed name this is.
fn named(alloc: Global, login: &str, text: &[u8]) -> Result<Option<Path>, AllocError>
    ensures { IfOk result (λ p. p ≡ path_named login.now text.now) }
{
    match Path::plain(alloc, login, text) {
        Ok(path) => {
            let printed = path.print(alloc, login)?;
            if printed.as_bytes() == text {
                Ok(Some(path))
            } else {
                Ok(None)
            }
        }
        Err(PathError::Memory) => Err(AllocError),
        Err(_) => Ok(None),
    }
}

/// A path, as it is printed.
pub fn path_at(
    alloc: Global,
    login: &str,
    object: &Value,
    key: &str,
) -> Result<Option<Path>, AllocError>
    ensures { IfOk result (λ p. p ≡ field key.now (path_in login.now) (view object.now)) }
{
    match object.get(key) {
        Some(value) => match value.as_str() {
            Some(text) => named(alloc, login, text.as_bytes()),
            None => Ok(None),
        },
        None => Ok(None),
    }
}

// A component of at most 200 bytes.
fn root_at(alloc: Global, object: &Value, key: &str) -> Result<Option<Text>, AllocError>
    ensures { IfOk result (λ t. t ≡ field key.now root_in (view object.now)) }
{
    let Some(value) = object.get(key) else {
        return Ok(None);
    };
    match value.as_str() {
        Some(text) if text.len() <= LONGEST_ROOT && is_component(text.as_bytes()) => {
            Ok(Some(Text::from_str(alloc, text)?))
        }
        _ => Ok(None),
    }
}

// The number of a reducer below 2^32, or none.
fn reducer_at(object: &Value, key: &str) -> Option<Option<u32>>
    ensures { result ≡ field key.now reducer_in (view object.now) }
{
    let value = object.get(key)?;
    if value.is_null() {
        return Some(None);
    }
    match value.as_u64() {
        Some(number) if number <= u32::MAX as u64 => Some(Some(number as u32)),
        _ => None,
    }
}

/// An item of a feed.
#[tactic(auto, unfolding(crate::specs::Read::item_in))]
pub fn item(alloc: Global, login: &str, value: &Value) -> Result<Option<Item<Sum>>, AllocError>
    ensures { IfOk result (λ i. i ≡ item_in login.now (view value.now)) }
{
    if !has_members(value, 5) {
        return Ok(None);
    }
    let Some(md5) = digest_at(value, "md5") else {
        return Ok(None);
    };
    let Some(name) = path_at(alloc, login, value, "name")? else {
        return Ok(None);
    };
    let Some(reducer) = reducer_at(value, "reducer") else {
        return Ok(None);
    };
    let Some(root) = root_at(alloc, value, "root")? else {
        return Ok(None);
    };
    let Some(size) = whole_at(value, "size") else {
        return Ok(None);
    };
    let body = Sum { md5, size };
    Ok(Some(Item {
        name,
        root,
        body,
        reducer,
    }))
}
