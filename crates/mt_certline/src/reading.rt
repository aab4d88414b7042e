//! A line is read.
ghost use Rattle.std.specs.Prelude.{◌≡◌, IfOk, IfSome, IsUtf8, Some};
ghost use Rattle.serde_json.specs.Read as json;
ghost use Rattle.serde_json.specs.View.{view};
ghost use Rattle.mt_certline.specs.Read.{alone_in, line_in, line_of};
ghost use Rattle.mt_certline.specs.Written.{IsShowable};

use crate::begin::begin;
use crate::line::Line;
use crate::tasks::task;
use crate::values::{has_members, item, path_at};
use serde_json::Value;
use std::alloc::{AllocError, Global};

// A line of one key.
#[tactic(auto, unfolding(crate::specs::Read::alone_in))]
fn alone(alloc: Global, login: &str, object: &Value) -> Result<Option<Line>, AllocError>
    ensures { IfOk result (λ l. l ≡ alone_in login.now (view object.now)) }
{
    if !has_members(object, 1) {
        return Ok(None);
    }
    if let Some(value) = object.get("input") {
        return match item(alloc, login, value)? {
            Some(item) => Ok(Some(Line::Input(item))),
            None => Ok(None),
        };
    }
    if object.get("output").is_some() {
        return match path_at(alloc, login, object, "output")? {
            Some(path) => Ok(Some(Line::Output(path))),
            None => Ok(None),
        };
    }
    match object.get("end") {
        Some(value) if value.as_bool() == Some(true) => Ok(Some(Line::End)),
        _ => Ok(None),
    }
}

// The line that a value is, which was read from this text.
#[tactic(auto, unfolding(crate::specs::Read::line_in))]
fn line(alloc: Global, login: &str, text: &[u8], value: &Value) -> Result<Option<Line>, AllocError>
    requires text { IsUtf8 text.now }
    requires read { json.read text.now ≡ Some (view value.now) }
    ensures { IfOk result (λ l. l ≡ line_in login.now (view value.now)) }
{
    if value.get("certificate").is_some() {
        return begin(alloc, login, text, value);
    }
    if value.get("phase").is_some() {
        return match task(alloc, login, value)? {
            Some(task) => Ok(Some(Line::Task(task))),
            None => Ok(None),
        };
    }
    alone(alloc, login, value)
}

/// The line that a text is, without its line feed: a JSON object (RFC 8259) with exactly the keys of one of the five forms.
/// Names are those of this account, as they are printed; numbers are whole, in digits alone. Blanks and the order of keys
/// are free, and of a key that comes twice the last value stands.
pub fn read_line(alloc: Global, login: &str, text: &[u8]) -> Result<Option<Line>, AllocError>
    ensures exact { IfOk result (λ l. l ≡ line_of login.now text.now) }
    ensures showable { IfOk result (λ l. IfSome l IsShowable) }
{
    match Value::from_slice(alloc, text) {
        Ok(value) => line(alloc, login, text, &value),
        Err(e) => {
            if e.is_memory() {
                Err(AllocError)
            } else {
                Ok(None)
            }
        }
    }
}
