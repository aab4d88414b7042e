//! A document is read.
ghost use Rattle.std.specs.Prelude.{◌≡◌, ◌≢◌, Ok, Err, IfOk, IfErr, map};
ghost use Rattle.serde_json.specs.View.{view};
ghost use Rattle.mt_jobdoc.specs.Document.{document_in, document_of, object_of, listed, name_in, phases_in, IsUnlessMemory};

use crate::error::InvalidJob;
use crate::fields::items;
use crate::phases::phases;
use mt_base::Text;
use mt_types::{JobDocument, MOST_PHASES, Phases, is_job_name};
use serde_json::Value;
use std::alloc::{AllocError, Global};

// The JSON object that bytes are.
fn object(alloc: Global, bytes: &[u8]) -> Result<Value, InvalidJob>
    ensures ok { IfOk result (λ v. object_of bytes.now ≡ Ok (view v)) }
    ensures refused { IfErr result (λ e. e ≢ InvalidJob.Memory → object_of bytes.now ≡ Err e) }
{
    match Value::from_slice(alloc, bytes) {
        Ok(value) => {
            if value.is_object() {
                Ok(value)
            } else {
                Err(InvalidJob::NotJson)
            }
        }
        Err(e) => {
            if e.is_memory() {
                Err(InvalidJob::Memory)
            } else {
                Err(InvalidJob::NotJson)
            }
        }
    }
}

// The phases of an object, 1 to 16.
fn values(object: &Value) -> Result<&[Value], InvalidJob>
    ensures ok { IfOk result (λ values. listed (view object.now) ≡ Ok (map view values.now)) }
    ensures refused { IfErr result (λ e. listed (view object.now) ≡ Err e) }
{
    let Some(list) = object.get("phases") else {
        return Err(InvalidJob::NoPhases);
    };
    match items(list) {
        Some(values) if values.len() > MOST_PHASES => Err(InvalidJob::TooManyPhases),
        Some(values) if !values.is_empty() => Ok(values),
        _ => Err(InvalidJob::NoPhases),
    }
}

// The name of an object, empty where it has none.
fn name(alloc: Global, object: &Value) -> Result<Text, AllocError>
    ensures { IfOk result (λ name. name ≡ name_in (view object.now)) }
{
    match object.get("name").and_then(Value::as_str) {
        Some(name) if is_job_name(name.as_bytes()) => Text::from_str(alloc, name),
        _ => Text::from_str(alloc, ""),
    }
}

/// The job document that bytes are, as JSON (RFC 8259). Names of assets are those of this account. Of an object only these
/// keys are looked at, and all others are passed over:
///
/// | Key | Value |
/// |---|---|
/// | `name` | a text of at most 16,777,216 bytes; anything else counts as an empty one |
/// | `phases` | a list of 1 to 16 objects |
/// | `type` of a phase | `map`, also where it is absent, or `reduce` |
/// | `exec` | a text of 1 to 65,536 bytes without NUL |
/// | `init` | absent, or a text of at most 65,536 bytes without NUL; an empty one counts as absent |
/// | `assets` | absent, or a list of at most 64 names of objects |
/// | `count` of a phase that reduces | a whole number of 1 to 1,024, 1 where it is absent |
pub fn read(alloc: Global, login: &str, bytes: &[u8]) -> Result<JobDocument, InvalidJob>
    ensures exact { IsUnlessMemory (document_of login.now bytes.now) result }
{
    match object(alloc, bytes) {
        Ok(object) => document(alloc, login, &object),
        Err(e) => Err(e),
    }
}

/// The phases that stand under the key `phases` of an object, as those of a document do.
pub fn read_phases(alloc: Global, login: &str, object: &Value) -> Result<Phases, InvalidJob>
    ensures { IsUnlessMemory (phases_in login.now (view object.now)) result }
{
    match values(object) {
        Ok(values) => phases(alloc, login, values),
        Err(e) => Err(e),
    }
}

// The document that an object is.
fn document(alloc: Global, login: &str, object: &Value) -> Result<JobDocument, InvalidJob>
    ensures { IsUnlessMemory (document_in login.now (view object.now)) result }
{
    match values(object) {
        Ok(values) => match phases(alloc, login, values) {
            Ok(phases) => Ok(JobDocument {
                name: name(alloc, object)?,
                phases,
            }),
            Err(e) => Err(e),
        },
        Err(e) => Err(e),
    }
}
