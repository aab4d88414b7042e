//! How the fields of a head tell the length of the body (RFC 9112, section 6).
ghost use Rattle.std.specs.Prelude.{◌≡◌, length};
ghost use Rattle.mt_http.specs.Message.{framing, framing_by_coding, framing_by_length};
ghost use Rattle.mt_types.specs.Fields.{values_of};

use mt_bytes::read_decimal;
use mt_types::{Field, first_value};

/// How the length of a body is told.
#[derive(Clone, Copy, Debug, PartialEq, Eq)]
pub enum Framing {
    /// By neither field: there is no body.
    Empty,
    /// By Content-Length, in bytes.
    Length(u64),
    /// By its chunks (RFC 9112, section 7.1).
    Chunked,
}

// How many fields have this name.
fn count_of(fields: &[Field], name: &str) -> usize
    ensures { result ≡ length (values_of name.now fields.now) }
{
    let mut count = 0;
    for field in fields {
        if field.name.as_str() == name {
            count += 1;
        }
    }
    count
}

fn coding_framing(coding: &[u8]) -> Option<Framing>
    ensures { result ≡ framing_by_coding coding.now }
{
    if coding.eq_ignore_ascii_case(b"chunked") {
        Some(Framing::Chunked)
    } else {
        None
    }
}

fn length_framing(text: &[u8]) -> Option<Framing>
    ensures { result ≡ framing_by_length text.now }
{
    match read_decimal(text) {
        Some(size) => Some(Framing::Length(size)),
        None => None,
    }
}

/// How the fields of a head tell the length of the body, or none where they contradict each other or ask for
/// what is not read.
pub(crate) fn read_framing(fields: &[Field]) -> Option<Framing>
    ensures { result ≡ framing fields.now }
{
    let codings = count_of(fields, "transfer-encoding");
    let lengths = count_of(fields, "content-length");
    if 1 < codings || 1 < lengths || codings + lengths == 2 {
        return None;
    }
    match first_value(fields, "transfer-encoding") {
        Some(coding) => coding_framing(coding),
        None => match first_value(fields, "content-length") {
            Some(text) => length_framing(text),
            None => Some(Framing::Empty),
        },
    }
}
