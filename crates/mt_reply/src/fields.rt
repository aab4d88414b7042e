//! The fields of replies.
ghost use Rattle.std.specs.Prelude.{◌≡◌, ◌≤◌, ◌<◌, ◌^◌, ◌++◌, decimal, IfOk, OnOk};
ghost use Rattle.mt_ident.specs.Digests.{digest_text};
ghost use Rattle.mt_reply.specs.ReplyFields as words;

use crate::stamp::Stamp;
use mt_base::{Bytes, Duplicate, LAST_MOMENT, Text};
use mt_bytes::put_decimal;
use mt_error::More;
use mt_ident::{http_date, md5_text, uuid_text};
use mt_types::{Field, LiveText, Object};
use std::alloc::{AllocError, Global};

/// A field.
pub fn field(alloc: Global, name: &str, value: &[u8]) -> Result<Field, AllocError>
    ensures { IfOk result (λ f. f ≡ words.field name.now value.now) }
{
    Ok(Field {
        name: Text::from_str(alloc, name)?,
        value: Bytes::from_slice(alloc, value)?,
    })
}

/// A field of a moment.
pub fn date_field(alloc: Global, name: &str, moment: u64) -> Result<Field, AllocError>
    requires { moment ≤ LAST_MOMENT }
    ensures { IfOk result (λ f. f ≡ words.date_field name.now moment) }
{
    field(alloc, name, &http_date(moment))
}

/// A field of a number.
pub fn number_field(alloc: Global, name: &str, number: u64) -> Result<Field, AllocError>
    ensures { IfOk result (λ f. f ≡ words.number_field name.now number) }
{
    let mut text = Vec::new(alloc);
    put_decimal(&mut text, number)?;
    field(alloc, name, text.as_slice())
}

/// A field of a digest.
pub fn digest_field(alloc: Global, name: &str, digest: &[u8; 16]) -> Result<Field, AllocError>
    ensures { IfOk result (λ f. f ≡ words.digest_field name.now digest.now) }
{
    field(alloc, name, &md5_text(digest))
}

/// The identifier of the object of this number.
pub fn etag_field(alloc: Global, number: u64) -> Result<Field, AllocError>
    requires { number < 2 ^ 62 }
    ensures { IfOk result (λ f. f ≡ words.etag_field number) }
{
    field(alloc, "etag", &uuid_text(1, number))
}

/// When an object was put.
pub fn modified_field(alloc: Global, mtime: u64) -> Result<Field, AllocError>
    requires { mtime ≤ LAST_MOMENT }
    ensures { IfOk result (λ f. f ≡ words.modified_field mtime) }
{
    date_field(alloc, "last-modified", mtime)
}

/// The places of the first and the last byte of a part, and the size of all.
pub fn part_field(alloc: Global, from: u64, to: u64, size: u64) -> Result<Field, AllocError>
    requires { from < to }
    ensures { IfOk result (λ f. f ≡ words.part_field from to size) }
{
    let mut text = Vec::new(alloc);
    text.extend_from_slice(b"bytes ")?;
    put_decimal(&mut text, from)?;
    text.extend_from_slice(b"-")?;
    put_decimal(&mut text, to - 1)?;
    text.extend_from_slice(b"/")?;
    put_decimal(&mut text, size)?;
    field(alloc, "content-range", text.as_slice())
}

/// The size of an object, of which no byte is sent.
pub fn no_part_field(alloc: Global, size: u64) -> Result<Field, AllocError>
    ensures { IfOk result (λ f. f ≡ words.no_part_field size) }
{
    let mut text = Vec::new(alloc);
    text.extend_from_slice(b"bytes */")?;
    put_decimal(&mut text, size)?;
    field(alloc, "content-range", text.as_slice())
}

/// Adds what every reply says.
pub fn add_stamp(fields: &mut Vec<Field>, alloc: Global, stamp: Stamp) -> Result<(), AllocError>
    requires { stamp.moment ≤ LAST_MOMENT }
    ensures { OnOk result (fields.new.items ≡ fields.old.items ++ words.stamp_fields stamp) }
{
    fields.push(date_field(alloc, "date", stamp.moment)?)?;
    fields.push(number_field(alloc, "x-marlin-position", stamp.position)?)?;
    Ok(())
}

// Adds how many copies were asked for.
fn add_durability(
    fields: &mut Vec<Field>,
    alloc: Global,
    durability: Option<u8>,
) -> Result<(), AllocError>
    ensures { OnOk result (fields.new.items ≡ fields.old.items ++ words.durability_fields durability) }
{
    if let Some(level) = durability {
        fields.push(number_field(alloc, "durability-level", level as u64)?)?;
    }
    Ok(())
}

// Adds copies of fields.
fn add_all(fields: &mut Vec<Field>, alloc: Global, more: &[Field]) -> Result<(), AllocError>
    ensures { OnOk result (fields.new.items ≡ fields.old.items ++ more.now) }
{
    for field in more {
        fields.push(field.copy(alloc)?)?;
    }
    Ok(())
}

/// Adds what is said of an object whenever bytes of it are sent.
pub fn add_object<B>(
    fields: &mut Vec<Field>,
    alloc: Global,
    object: &Object<B>,
) -> Result<(), AllocError>
    requires number { object.now.number < 2 ^ 62 }
    requires mtime { object.now.mtime ≤ LAST_MOMENT }
    ensures { OnOk result (fields.new.items ≡ fields.old.items ++ words.object_fields object.now) }
{
    fields.push(field(alloc, "content-type", object.content_type.as_bytes())?)?;
    fields.push(etag_field(alloc, object.number)?)?;
    fields.push(modified_field(alloc, object.mtime)?)?;
    add_durability(fields, alloc, object.durability)?;
    add_all(fields, alloc, object.metadata.as_slice())?;
    Ok(())
}

/// Adds what the reply to a refusal says besides its code.
pub fn add_more(fields: &mut Vec<Field>, alloc: Global, more: More) -> Result<(), AllocError>
    ensures { OnOk result (fields.new.items ≡ fields.old.items ++ words.more_fields more) }
{
    match more {
        More::Nothing => {}
        More::Allow(methods) => fields.push(field(alloc, "allow", methods.text().as_bytes())?)?,
        More::Size(size) => fields.push(no_part_field(alloc, size)?)?,
    }
    Ok(())
}

// The content type of a text of a job.
fn live_type(text: LiveText) -> &'static str
    ensures { result.now ≡ words.live_type text }
{
    match text {
        LiveText::In | LiveText::Out | LiveText::Fail => "text/plain",
        LiveText::Err | LiveText::Tasks => "application/x-json-stream",
        LiveText::Status => "application/json",
    }
}

/// What is said of a text of a job, which has so many lines.
pub fn live_fields(alloc: Global, text: LiveText, count: u64) -> Result<Vec<Field>, AllocError>
    ensures { IfOk result (λ fields. fields.items ≡ words.live_fields text count) }
{
    let mut fields = Vec::new(alloc);
    fields.push(field(alloc, "content-type", live_type(text).as_bytes())?)?;
    match text {
        LiveText::Status => {}
        LiveText::In | LiveText::Out | LiveText::Fail | LiveText::Err | LiveText::Tasks => {
            fields.push(number_field(alloc, "result-set-size", count)?)?
        }
    }
    Ok(fields)
}
