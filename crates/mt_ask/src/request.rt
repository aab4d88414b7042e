//! The head of a request.
ghost use Rattle.std.specs.Prelude.{◌≡◌, ◌++◌, codes, decimal, IfOk, OnOk, string_bytes};
ghost use Rattle.std.specs.List.{flat_map};
ghost use Rattle.std.specs.Option.{option_copied};
ghost use Rattle.mt_ask.specs.Requests.{body_len, field, field_line, fields_of, length_fields, location_fields, method_of, request_head, request_line, target_of, target_text, type_fields};
ghost use Rattle.mt_ask.specs.Words.{IsAsk};

use crate::ask::{Ask, PageAsk, Words};
use crate::escapes::put_escaped;
use crate::target::put_target;
use itoa::Buffer;
use mt_base::Bytes;
use std::alloc::{AllocError, Global};

// The method of a request.
fn method_of(ask: &Ask) -> &'static str
    ensures { result.now ≡ method_of ask.now }
{
    match ask {
        Ask::List(_) | Ask::Find(_) | Ask::Get(_) | Ask::JobStatus(_) | Ask::JobOutputs(_) => "GET",
        Ask::Put(_) | Ask::MakeDirectory(_) | Ask::Link { .. } => "PUT",
        Ask::Remove(_) => "DELETE",
        Ask::CreateJob | Ask::AddInputs(_) | Ask::EndInput(_) | Ask::CancelJob(_) => "POST",
    }
}

// Appends the line of a field.
fn put_field(out: &mut String, name: &str, value: &str) -> Result<(), AllocError>
    ensures { OnOk result (string_bytes out.new ≡ string_bytes out.old ++ field_line (field name.now value.now)) }
{
    out.push_str(name)?;
    out.push_str(": ")?;
    out.push_str(value)?;
    out.push_str("\r\n")
}

// Appends the first line.
fn put_line(
    out: &mut String,
    alloc: Global,
    words: &Words,
    page: Option<&PageAsk>,
) -> Result<(), AllocError>
    requires { IsAsk words.now.ask }
    ensures { OnOk result (string_bytes out.new ≡ string_bytes out.old ++ request_line (method_of words.now.ask) (target_of words.now.login words.now.ask (option_copied page.entry))) }
{
    out.push_str(method_of(&words.ask))?;
    out.push_str(" ")?;
    put_target(out, alloc, words.login.as_str(), &words.ask, page)?;
    out.push_str(" HTTP/1.1\r\n")
}

// The length of a body, where the source has so many bytes.
fn body_len(ask: &Ask, len: u64) -> u64
    ensures { result ≡ body_len ask.now len }
{
    if ask.carries_source() { len } else { 0 }
}

// Appends a length.
fn put_number(out: &mut String, number: u64) -> Result<(), AllocError>
    ensures { OnOk result (string_bytes out.new ≡ string_bytes out.old ++ field_line (field (codes "content-length") (decimal number))) }
{
    let mut digits = Buffer::new();
    put_field(out, "content-length", digits.format(number))
}

// Appends the length of a body, where it is told.
fn put_length(out: &mut String, ask: &Ask, len: u64) -> Result<(), AllocError>
    ensures { OnOk result (string_bytes out.new ≡ string_bytes out.old ++ flat_map field_line (length_fields ask.now len)) }
{
    if !ask.has_length() {
        return Ok(());
    }
    put_number(out, body_len(ask, len))
}

// Appends what a put makes.
fn put_type(out: &mut String, ask: &Ask) -> Result<(), AllocError>
    ensures { OnOk result (string_bytes out.new ≡ string_bytes out.old ++ flat_map field_line (type_fields ask.now)) }
{
    match ask {
        Ask::Put(_) => put_field(out, "content-type", "application/octet-stream"),
        Ask::MakeDirectory(_) => put_field(out, "content-type", "application/json; type=directory"),
        Ask::Link { .. } => put_field(out, "content-type", "application/json; type=link"),
        Ask::List(_)
        | Ask::Find(_)
        | Ask::Get(_)
        | Ask::Remove(_)
        | Ask::CreateJob
        | Ask::AddInputs(_)
        | Ask::EndInput(_)
        | Ask::CancelJob(_)
        | Ask::JobStatus(_)
        | Ask::JobOutputs(_) => Ok(()),
    }
}

// Appends the object that is linked.
fn put_location(out: &mut String, alloc: Global, login: &str, ask: &Ask) -> Result<(), AllocError>
    ensures { OnOk result (string_bytes out.new ≡ string_bytes out.old ++ flat_map field_line (location_fields login.now ask.now)) }
{
    let Ask::Link { source, .. } = ask else {
        return Ok(());
    };
    let text = source.print(alloc, login)?;
    out.push_str("location: ")?;
    put_escaped(out, text.as_bytes())?;
    out.push_str("\r\n")
}

// Appends the fields.
fn put_fields(out: &mut String, alloc: Global, words: &Words, len: u64) -> Result<(), AllocError>
    ensures { OnOk result (string_bytes out.new ≡ string_bytes out.old ++ flat_map field_line (fields_of words.now len)) }
{
    put_length(out, &words.ask, len)?;
    put_type(out, &words.ask)?;
    put_field(out, "host", words.url.as_str())?;
    put_location(out, alloc, words.login.as_str(), &words.ask)
}

/// The head of the request that words ask for (RFC 9112, sections 3 and 5): its first line, and the fields `content-length` of a PUT
/// or a POST, `content-type` of an object, a directory and a link, `host`, and of a link `location`, in this order.
///
/// A `page` is looked at by listings alone, which ask for their directory's first page without one. Where the words' source is the
/// body it has `len` bytes; any other body has none. The answer is an error for want of memory alone.
#[tactic(auto, using(std::proofs::Common::append_assoc), unfolding(crate::specs::Requests::request_head))]
pub fn request_head(
    alloc: Global,
    words: &Words,
    page: Option<&PageAsk>,
    len: u64,
) -> Result<Bytes, AllocError>
    requires { IsAsk words.now.ask }
    ensures exact { IfOk result (λ head. head ≡ request_head words.now (option_copied page.entry) len) }
{
    let mut out = String::new(alloc);
    put_line(&mut out, alloc, words, page)?;
    put_fields(&mut out, alloc, words, len)?;
    out.push_str("\r\n")?;
    Ok(Bytes::from_vec(out.into_bytes()))
}
