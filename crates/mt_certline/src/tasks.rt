//! The line of a committed task.
ghost use Rattle.std.specs.Prelude.{◌≡◌, IfOk, codes, map, option_map};
ghost use Rattle.serde_json.specs.View.{view};
ghost use Rattle.serde_json.specs.Find.{as_array, get};
ghost use Rattle.std.specs.Prelude.{option_and_then};
ghost use Rattle.mt_jobdoc.specs.Document.{list_of};
ghost use Rattle.mt_certline.specs.Read.{each, field, item_in, list_in, outputs_as, outputs_in, task_in, whole_in};

use crate::line::{Listed, Sum};
use crate::values::{has_members, item, whole_at};
use mt_base::Sequence;
use mt_types::Items;
use serde_json::Value;
use std::alloc::{AllocError, Global};

// The values of a list, if it is one.
fn list_at<'a>(object: &'a Value, key: &str) -> Option<&'a [Value]>
    ensures { option_map (λ vs. map view vs.now) result ≡ option_map list_of (option_and_then as_array (get key.now (view object.now))) }
{
    match object.get(key)?.as_array() {
        Some(values) => Some(values.as_slice()),
        None => None,
    }
}

// Items, if each is one.
fn items(alloc: Global, login: &str, values: &[Value]) -> Result<Option<Items<Sum>>, AllocError>
    ensures { IfOk result (λ items. items ≡ each (item_in login.now) (map view values.now)) }
{
    let mut items = Vec::new(alloc);
    for value in values {
        let Some(found) = item(alloc, login, value)? else {
            return Ok(None);
        };
        items.push(found)?;
    }
    Ok(Some(Sequence::from_vec(items)))
}

// Whole numbers below 2^64, if each is one.
fn wholes(alloc: Global, values: &[Value]) -> Result<Option<Sequence<u64>>, AllocError>
    ensures { IfOk result (λ numbers. numbers ≡ each whole_in (map view values.now)) }
{
    let mut numbers = Vec::new(alloc);
    for value in values {
        let Some(number) = value.as_u64() else {
            return Ok(None);
        };
        numbers.push(number)?;
    }
    Ok(Some(Sequence::from_vec(numbers)))
}

// The items of a key.
fn items_at(
    alloc: Global,
    login: &str,
    object: &Value,
    key: &str,
) -> Result<Option<Items<Sum>>, AllocError>
    ensures { IfOk result (λ items. items ≡ field key.now (list_in (item_in login.now)) (view object.now)) }
{
    match list_at(object, key) {
        Some(values) => items(alloc, login, values),
        None => Ok(None),
    }
}

// The whole numbers of a key.
fn wholes_at(alloc: Global, object: &Value, key: &str) -> Result<Option<Sequence<u64>>, AllocError>
    ensures { IfOk result (λ numbers. numbers ≡ field key.now (list_in whole_in) (view object.now)) }
{
    match list_at(object, key) {
        Some(values) => wholes(alloc, values),
        None => Ok(None),
    }
}

// The outputs of a task in this state.
fn outputs(items: Items<Sum>, state: &str) -> Option<Option<Items<Sum>>>
    ensures { result ≡ outputs_as items state.now }
{
    if state == "ok" {
        return Some(Some(items));
    }
    if state == "failed" && items.len() == 0 {
        return Some(None);
    }
    None
}

// The outputs of a task, by the state of a key.
fn outputs_at(items: Items<Sum>, object: &Value, key: &str) -> Option<Option<Items<Sum>>>
    ensures { result ≡ field key.now (outputs_in items) (view object.now) }
{
    match object.get(key)?.as_str() {
        Some(state) => outputs(items, state),
        None => None,
    }
}

/// A committed task.
#[tactic(auto, unfolding(crate::specs::Read::task_in))]
pub fn task(alloc: Global, login: &str, value: &Value) -> Result<Option<Listed>, AllocError>
    ensures { IfOk result (λ l. l ≡ task_in login.now (view value.now)) }
{
    if !has_members(value, 6) {
        return Ok(None);
    }
    let Some(items) = items_at(alloc, login, value, "items")? else {
        return Ok(None);
    };
    let Some(phase) = whole_at(value, "phase") else {
        return Ok(None);
    };
    let Some(place) = whole_at(value, "place") else {
        return Ok(None);
    };
    let Some(position) = whole_at(value, "position") else {
        return Ok(None);
    };
    let Some(reads) = wholes_at(alloc, value, "reads")? else {
        return Ok(None);
    };
    let Some(outputs) = outputs_at(items, value, "state") else {
        return Ok(None);
    };
    Ok(Some(Listed {
        phase,
        place,
        position,
        outputs,
        reads,
    }))
}
