//! Requests on uploads are read.
ghost use Rattle.std.specs.Prelude.{◌≡◌, IfOk, option_map};
ghost use Rattle.std.specs.Result.{result_ok};
ghost use Rattle.serde_json.specs.View.{view};
ghost use Rattle.mt_jobdoc.specs.Document.{object_of};
ghost use Rattle.mt_uploaddoc.specs.Documents.{numbers_of, upload_in, upload_of};

use crate::document::UploadDocument;
use crate::fields::{content_type, object_path, part_numbers, part_values};
use mt_types::PartNumbers;
use serde_json::Value;
use std::alloc::{AllocError, Global};

// The JSON object that bytes are, if they are one.
fn object(alloc: Global, bytes: &[u8]) -> Result<Option<Value>, AllocError>
    ensures { IfOk result (λ v. option_map view v ≡ result_ok (object_of bytes.now)) }
{
    match Value::from_slice(alloc, bytes) {
        Ok(value) => {
            if value.is_object() {
                Ok(Some(value))
            } else {
                Ok(None)
            }
        }
        Err(e) => {
            if e.is_memory() {
                Err(AllocError)
            } else {
                Ok(None)
            }
        }
    }
}

// The upload that an object asks for.
#[tactic(auto, unfolding(crate::specs::Documents::upload_in))]
fn upload(alloc: Global, login: &str, object: &Value) -> Result<Option<UploadDocument>, AllocError>
    ensures { IfOk result (λ d. d ≡ upload_in login.now (view object.now)) }
{
    let Some(path) = object_path(alloc, login, object)? else {
        return Ok(None);
    };
    match content_type(alloc, object)? {
        Some(content_type) => Ok(Some(UploadDocument { path, content_type })),
        None => Ok(None),
    }
}

/// The upload that bytes ask for, as JSON (RFC 8259); none where they are no such request. Other keys are passed over, and
/// of a key that comes twice the last value stands:
///
/// | Key | Value |
/// |---|---|
/// | `objectPath` | a text that names a path of this account, as it is printed, or behind `~~` |
/// | `contentType` | absent, which counts as `application/octet-stream`, or a text of at most 255 bytes of 32 to 126 with no space at either end; `null` is none |
///
/// Whether an object may stand at the path is not judged here. The answer is an error for want of memory alone.
#[tactic(auto, unfolding(crate::specs::Documents::upload_of))]
pub fn read_upload(
    alloc: Global,
    login: &str,
    bytes: &[u8],
) -> Result<Option<UploadDocument>, AllocError>
    ensures exact { IfOk result (λ d. d ≡ upload_of login.now bytes.now) }
{
    match object(alloc, bytes)? {
        Some(object) => upload(alloc, login, &object),
        None => Ok(None),
    }
}

/// The numbers of the parts that bytes list, as JSON (RFC 8259); none where they are no such request: `parts` is a list of
/// at most 10,000 texts, the etags of the parts in their order. Other keys are passed over, and of a key that comes twice
/// the last value stands. A text that is no etag, as one in quotes, counts as 2^64 - 1, which is no part's number, so that a
/// commit is refused in its place. The answer is an error for want of memory alone.
#[tactic(auto, unfolding(crate::specs::Documents::numbers_of))]
pub fn read_numbers(alloc: Global, bytes: &[u8]) -> Result<Option<PartNumbers>, AllocError>
    ensures exact { IfOk result (λ ns. ns ≡ numbers_of bytes.now) }
{
    let Some(object) = object(alloc, bytes)? else {
        return Ok(None);
    };
    match part_values(&object) {
        Some(values) => part_numbers(alloc, values),
        None => Ok(None),
    }
}
