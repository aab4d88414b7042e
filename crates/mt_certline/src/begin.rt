//! The first line of a certificate.
ghost use Rattle.std.specs.Prelude.{◌≡◌, ◌≤◌, true, IfOk, IsUtf8, Some, codes, is_some};
ghost use Rattle.std.specs.Result.{result_ok};
ghost use Rattle.serde_json.specs.Data.{depth};
ghost use Rattle.serde_json.specs.Find.{as_object};
ghost use Rattle.serde_json.specs.Read as json;
ghost use Rattle.serde_json.specs.View.{view};
ghost use Rattle.mt_jobdoc.specs.Document.{document_in};
ghost use Rattle.mt_jobdoc.specs.Printed.{phases_data};
ghost use Rattle.mt_certline.specs.Read.{as_printed, begin_in, field, is_same_value, number_in, phases_in};

use crate::line::Line;
use crate::values::{has_members, whole_at};
use mt_ident::uuid_number;
use mt_jobdoc::{InvalidJob, phases_value, read};
use mt_types::{JobDocument, Phases};
use serde_json::Value;
use std::alloc::{AllocError, Global};

/// The version of the form of certificates.
const VERSION: u64 = 1;

/// The kind of the identifiers of jobs.
const JOB: u8 = 2;

// The number of a job, by its identifier.
fn number_at(object: &Value, key: &str) -> Option<u64>
    ensures { result ≡ field key.now number_in (view object.now) }
{
    match object.get(key)?.as_str() {
        Some(text) => uuid_number(JOB, text.as_bytes()),
        None => None,
    }
}

// Whether the value is the phases of a document, as they are printed.
fn is_printed(
    alloc: Global,
    login: &str,
    document: &JobDocument,
    value: &Value,
) -> Result<bool, AllocError>
    requires { depth (view value.now) ≤ json.max_depth }
    ensures { IfOk result (λ is. is ≡ is_same_value (view value.now) (phases_data login.now document.now)) }
{
    let shown = value.to_string(alloc)?;
    let printed = phases_value(alloc, login, document)?.to_string(alloc)?;
    Ok(shown.as_bytes() == printed.as_bytes())
}

// The document that the text of an object is.
fn document(
    alloc: Global,
    login: &str,
    text: &[u8],
    object: &Value,
) -> Result<Option<JobDocument>, AllocError>
    requires text { IsUtf8 text.now }
    requires read { json.read text.now ≡ Some (view object.now) }
    requires object { is_some (as_object (view object.now)) ≡ true }
    ensures { IfOk result (λ d. d ≡ result_ok (document_in login.now (view object.now))) }
{
    match read(alloc, login, text) {
        Ok(document) => Ok(Some(document)),
        Err(e) => match e {
            InvalidJob::Memory => Err(AllocError),
            _ => Ok(None),
        },
    }
}

// The phases of a document that stands in an object, where they stand as they are printed.
fn printed_phases(
    alloc: Global,
    login: &str,
    document: JobDocument,
    object: &Value,
) -> Result<Option<Phases>, AllocError>
    requires { depth (view object.now) ≤ json.max_depth }
    ensures { IfOk result (λ ps. ps ≡ field (codes "phases") (as_printed login.now document) (view object.now)) }
{
    let Some(value) = object.get("phases") else {
        return Ok(None);
    };
    if is_printed(alloc, login, &document, value)? {
        let JobDocument { name: _, phases } = document;
        Ok(Some(phases))
    } else {
        Ok(None)
    }
}

/// The first line.
#[tactic(auto, unfolding(crate::specs::Read::begin_in))]
pub fn begin(
    alloc: Global,
    login: &str,
    text: &[u8],
    object: &Value,
) -> Result<Option<Line>, AllocError>
    requires text { IsUtf8 text.now }
    requires read { json.read text.now ≡ Some (view object.now) }
    ensures { IfOk result (λ l. l ≡ begin_in login.now (view object.now)) }
{
    if !has_members(object, 3) || whole_at(object, "certificate") != Some(VERSION) {
        return Ok(None);
    }
    let Some(number) = number_at(object, "id") else {
        return Ok(None);
    };
    let Some(document) = document(alloc, login, text, object)? else {
        return Ok(None);
    };
    match printed_phases(alloc, login, document, object)? {
        Some(phases) => Ok(Some(Line::Begin { number, phases })),
        None => Ok(None),
    }
}
