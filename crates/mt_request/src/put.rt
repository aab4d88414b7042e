//! What a PUT asks for, and the refusals that stand behind the digest of its body.
ghost use Rattle.std.specs.Prelude.{◌≡◌, true, IfOk};
ghost use Rattle.std.specs.List.{list_any};
ghost use Rattle.std.specs.Option.{option_copied};
ghost use Rattle.mt_types.specs.Limits.{is_content_type};
ghost use Rattle.mt_request.specs.Kind.{type_of};
ghost use Rattle.mt_request.specs.Puts.{is_coding, is_other_body, link_doing, location_refusal, losing_refusal, object_doing, object_late, put_by, unless};

use crate::kind::{Kind, bare, kind_of};
use crate::metadata::{are_fine, level_of, metadata_of};
use crate::query::{names_metadata, query_of};
use crate::request::Doing;
use crate::target::read_path;
use mt_base::{Sequence, Text};
use mt_error::ErrorCode;
use mt_http::Head;
use mt_path::Path;
use mt_types::{
    Field, LARGEST_METADATA, first_value, has_field, is_content_type, is_metadata_within, is_named,
};
use std::alloc::{AllocError, Global};

/// The type of an object that none is given for.
const USUAL_TYPE: &[u8; 24] = b"application/octet-stream";

fn type_of(value: Option<&[u8]>) -> &[u8]
    ensures { result.now ≡ type_of (option_copied value.entry) }
{
    match value {
        Some(value) => value,
        None => USUAL_TYPE.as_slice(),
    }
}

// A copy of a content type.
#[tactic(auto, using(crate::proofs::Types::utf8_from_type))]
fn text_of(alloc: Global, text: &[u8]) -> Result<Text, AllocError>
    requires { is_content_type text.now ≡ true }
    ensures { IfOk result (λ t. t ≡ text.now) }
{
    match str::from_utf8(text) {
        Ok(text) => Text::from_str(alloc, text),
        Err(_) => unreachable!(),
    }
}

// A put of an object, by its type, its metadata and the copies that are asked for.
#[tactic(auto, unfolding(crate::specs::Puts::object_late))]
fn put_object(
    alloc: Global,
    path: Path,
    fields: &[Field],
) -> Result<Result<Doing, ErrorCode>, AllocError>
    ensures { IfOk result (λ asked. asked ≡ unless (object_late fields.now) (object_doing path fields.now)) }
{
    let metadata = metadata_of(alloc, fields)?;
    let content_type = type_of(first_value(fields, "content-type"));
    if !is_content_type(content_type) {
        return Ok(Err(ErrorCode::BadRequest));
    }
    if !are_fine(metadata.as_slice()) {
        return Ok(Err(ErrorCode::BadRequest));
    }
    let Some(durability) = level_of(first_value(fields, "durability-level")) else {
        return Ok(Err(ErrorCode::InvalidDurabilityLevel));
    };
    if !is_metadata_within(metadata.as_slice(), LARGEST_METADATA) {
        return Ok(Err(ErrorCode::MetadataTooLarge));
    }
    Ok(Ok(Doing::PutObject {
        path,
        content_type: text_of(alloc, content_type)?,
        durability,
        metadata: Sequence::from_vec(metadata),
    }))
}

// A put of a link, by its Location.
fn put_link(
    alloc: Global,
    login: &str,
    path: Path,
    location: Option<&[u8]>,
) -> Result<Result<Doing, ErrorCode>, AllocError>
    ensures { IfOk result (λ asked. asked ≡ unless (location_refusal login.now (option_copied location.entry))
        (link_doing path login.now (option_copied location.entry))) }
{
    let Some(raw) = location else {
        return Ok(Err(ErrorCode::LinkRequired));
    };
    match read_path(alloc, login, raw)? {
        Ok(source) => Ok(Ok(Doing::PutLink { path, source })),
        Err(code) => Ok(Err(code)),
    }
}

// Whether a Content-Encoding says anything but `identity`.
fn is_coding(alloc: Global, field: &Field) -> Result<bool, AllocError>
    ensures { IfOk result (λ coding. coding ≡ is_coding field.now) }
{
    if !is_named(field, "content-encoding") {
        return Ok(false);
    }
    Ok(bare(alloc, field.value.as_slice())?.as_slice() != b"identity".as_slice())
}

// Whether a body is coded.
fn is_coded(alloc: Global, fields: &[Field]) -> Result<bool, AllocError>
    ensures { IfOk result (λ coded. coded ≡ list_any is_coding fields.now) }
{
    for field in fields {
        if is_coding(alloc, field)? {
            return Ok(true);
        }
    }
    Ok(false)
}

// Whether a body is not what is to be stored, but a part of it or a coding.
fn is_other_body(alloc: Global, fields: &[Field]) -> Result<bool, AllocError>
    ensures { IfOk result (λ other. other ≡ is_other_body fields.now) }
{
    if has_field(fields, "content-range") {
        return Ok(true);
    }
    is_coded(alloc, fields)
}

/// Why a PUT is refused that would lose what is there, or what its body is.
pub fn losing_refusal(alloc: Global, head: &Head) -> Result<Option<ErrorCode>, AllocError>
    ensures { IfOk result (λ refusal. refusal ≡ losing_refusal head.now) }
{
    if is_other_body(alloc, head.fields.as_slice())? {
        return Ok(Some(ErrorCode::BadRequest));
    }
    if names_metadata(alloc, query_of(head.target.as_slice()))? {
        return Ok(Some(ErrorCode::InvalidArgument));
    }
    Ok(None)
}

/// What a PUT asks for, or its first refusal behind the digest: of an object its content type, its metadata, its durability
/// level and the size of its metadata; of a link its Location.
pub fn put_of(
    alloc: Global,
    login: &str,
    path: Path,
    fields: &[Field],
) -> Result<Result<Doing, ErrorCode>, AllocError>
    ensures { IfOk result (λ asked. asked ≡ put_by path login.now fields.now) }
{
    match kind_of(alloc, first_value(fields, "content-type"))? {
        Kind::Object => put_object(alloc, path, fields),
        Kind::Directory => Ok(Ok(Doing::PutDirectory { path })),
        Kind::Link => put_link(alloc, login, path, first_value(fields, "location")),
    }
}
