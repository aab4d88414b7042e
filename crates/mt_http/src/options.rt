//! What a request's head asks of the one who reads its body.
ghost use Rattle.std.specs.Prelude.{◌≡◌};
ghost use Rattle.std.specs.List.{list_any};
ghost use Rattle.mt_http.specs.Framing as said;
ghost use Rattle.mt_http.specs.Options as option;

use crate::framing::Framing;
use crate::message::Head;
use mt_base::trimmed;
use mt_types::{Field, LARGEST_BODY, first_value};

/// The body of a request that is no PUT has no more bytes than this.
const BODY_LIMIT: u64 = 16_777_216;

/// How many bytes the body of a head may have: 1,073,741,824 for PUT, 16,777,216 for every other method.
pub fn limit_of(head: &Head) -> u64
    ensures { result ≡ said.limit_of head.now }
{
    if head.method.as_str() == "PUT" {
        LARGEST_BODY
    } else {
        BODY_LIMIT
    }
}

fn has_body(framing: Framing, limit: u64) -> bool
    ensures { result ≡ option.has_body framing limit }
{
    match framing {
        Framing::Empty => false,
        Framing::Length(size) => 0 < size && size <= limit,
        Framing::Chunked => true,
    }
}

fn asks_to_continue(fields: &[Field]) -> bool
    ensures { result ≡ option.asks_to_continue fields.now }
{
    match first_value(fields, "expect") {
        Some(value) => value.eq_ignore_ascii_case(b"100-continue"),
        None => false,
    }
}

/// Whether the interim reply is written before the body is read (RFC 9110, section 10.1.1): the minor version is
/// 1, the first Expect field is `100-continue` in any case, and there is a body that is not known to be too large.
pub fn wants_interim(head: &Head) -> bool
    ensures { result ≡ option.wants_interim head.now }
{
    head.minor == 1
        && asks_to_continue(head.fields.as_slice())
        && has_body(head.framing, limit_of(head))
}

// Whether a word is `close`, in any case, among blanks.
fn is_close(word: &[u8]) -> bool
    ensures { result ≡ option.says_close word.now }
{
    trimmed(word).eq_ignore_ascii_case(b"close")
}

fn has_close(value: &[u8]) -> bool
    ensures { result ≡ option.has_close value.now }
{
    value.split(|byte| *byte == b',').any(|word| is_close(word))
}

fn closes_after(field: &Field) -> bool
    ensures { result ≡ option.asks_to_close field.now }
{
    field.name.as_str() == "connection" && has_close(field.value.as_slice())
}

fn any_closes(fields: &[Field]) -> bool
    ensures { result ≡ list_any option.asks_to_close fields.now }
{
    fields.iter().any(closes_after)
}

/// Whether no message follows one with this minor version and these fields on its connection (RFC 9112, section
/// 9.3): the version is 0, or a Connection field has `close`, in any case, among its words.
pub fn closes(minor: u8, fields: &[Field]) -> bool
    ensures { result ≡ option.closes minor fields.now }
{
    minor == 0 || any_closes(fields)
}
