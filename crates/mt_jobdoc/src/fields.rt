//! What stands in a phase.
ghost use Rattle.std.specs.Prelude.{◌≡◌, IfOk, map, option_map};
ghost use Rattle.serde_json.specs.Find.{as_array};
ghost use Rattle.serde_json.specs.View.{view};
ghost use Rattle.mt_types.specs.Limits.{is_command_line};
ghost use Rattle.mt_jobdoc.specs.Document.{list_of, passing, reduces_in, exec_in, init_in, assets_in, assets_of, asset_in, count_in, kind_in};

use crate::error::InvalidJob;
use mt_base::{Sequence, Text};
use mt_path::{Path, PathError};
use mt_types::{MOST_ASSETS, MOST_REDUCERS, Paths, PhaseKind, is_command_line};
use serde_json::Value;
use std::alloc::{AllocError, Global};

/// Whether a phase reduces; none where its type is no type.
pub fn reduces(phase: &Value) -> Option<bool>
    ensures { result ≡ reduces_in (view phase.now) }
{
    let Some(kind) = phase.get("type") else {
        return Some(false);
    };
    match kind.as_str() {
        Some("map") => Some(false),
        Some("reduce") => Some(true),
        _ => None,
    }
}

// A text, if it is a command line.
fn command(alloc: Global, text: &str) -> Result<Option<Text>, AllocError>
    ensures { IfOk result (λ t. t ≡ passing is_command_line text.now) }
{
    if is_command_line(text.as_bytes()) {
        Ok(Some(Text::from_str(alloc, text)?))
    } else {
        Ok(None)
    }
}

/// The command line of a phase; none where there is no such.
pub fn exec(alloc: Global, phase: &Value) -> Result<Option<Text>, AllocError>
    ensures { IfOk result (λ t. t ≡ exec_in (view phase.now)) }
{
    match phase.get("exec").and_then(Value::as_str) {
        Some(text) => command(alloc, text),
        None => Ok(None),
    }
}

/// The command line that is run before, if there is one; none where it is no command line.
pub fn init(alloc: Global, phase: &Value) -> Result<Option<Option<Text>>, AllocError>
    ensures { IfOk result (λ t. t ≡ init_in (view phase.now)) }
{
    let Some(value) = phase.get("init") else {
        return Ok(Some(None));
    };
    match value.as_str() {
        Some("") => Ok(Some(None)),
        Some(text) => match command(alloc, text)? {
            Some(text) => Ok(Some(Some(text))),
            None => Ok(None),
        },
        None => Ok(None),
    }
}

// The object that a value names, if it names one.
fn asset(alloc: Global, login: &str, value: &Value) -> Result<Option<Path>, AllocError>
    ensures { IfOk result (λ p. p ≡ asset_in login.now (view value.now)) }
{
    let Some(text) = value.as_str() else {
        return Ok(None);
    };
    match Path::plain(alloc, login, text.as_bytes()) {
        Ok(path) => Ok(Some(path)),
        Err(PathError::Memory) => Err(AllocError),
        Err(_) => Ok(None),
    }
}

// The objects that these name, if each names one.
fn named(alloc: Global, login: &str, values: &[Value]) -> Result<Option<Paths>, AllocError>
    ensures { IfOk result (λ ps. ps ≡ assets_of login.now (map view values.now)) }
{
    let mut paths = Vec::new(alloc);
    for value in values {
        let Some(path) = asset(alloc, login, value)? else {
            return Ok(None);
        };
        paths.push(path)?;
    }
    Ok(Some(Sequence::from_vec(paths)))
}

/// The items of a list; none where it is no list.
pub fn items(value: &Value) -> Option<&[Value]>
    ensures { option_map (λ items. map view items.now) result ≡ option_map list_of (as_array (view value.now)) }
{
    match value.as_array() {
        Some(items) => Some(items.as_slice()),
        None => None,
    }
}

/// The objects that each task finds; none where they are not as they must be.
pub fn assets(alloc: Global, login: &str, phase: &Value) -> Result<Option<Paths>, AllocError>
    ensures { IfOk result (λ ps. ps ≡ assets_in login.now (view phase.now)) }
{
    let Some(value) = phase.get("assets") else {
        return Ok(Some(Sequence::new(alloc)));
    };
    match items(value) {
        Some(values) if values.len() <= MOST_ASSETS => named(alloc, login, values),
        _ => Ok(None),
    }
}

// The number of reducers; none where it is no such number.
fn count(phase: &Value) -> Option<u32>
    ensures { result ≡ count_in (view phase.now) }
{
    let Some(value) = phase.get("count") else {
        return Some(1);
    };
    match value.as_u64() {
        Some(number) if 1 <= number && number <= MOST_REDUCERS as u64 => Some(number as u32),
        _ => None,
    }
}

/// How the phase of the number `k` cuts its feed.
pub fn kind(k: u64, reduces: bool, phase: &Value) -> Result<PhaseKind, InvalidJob>
    ensures { result ≡ kind_in k reduces (view phase.now) }
{
    if !reduces {
        return Ok(PhaseKind::Map);
    }
    match count(phase) {
        Some(count) => Ok(PhaseKind::Reduce { count }),
        None => Err(InvalidJob::BadCount(k)),
    }
}
