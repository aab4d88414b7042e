//! How long the body of a reply is (RFC 9112, section 6.3).
ghost use Rattle.std.specs.Prelude.{◌≡◌, length};
ghost use Rattle.std.specs.Option.{option_copied};
ghost use Rattle.mt_response.specs.Replies.{is_bodiless, length_in, only};
ghost use Rattle.mt_types.specs.Fields.{values_of};

use crate::reply::ReplyHead;
use mt_bytes::read_decimal;
use mt_types::{Field, first_value};

// A status whose reply has no body.
fn is_bodiless(status: u16) -> bool
    ensures { result ≡ is_bodiless status }
{
    status == 204 || status == 304
}

// How many fields have this name.
fn count_of(fields: &[Field], name: &str) -> usize
    ensures { result ≡ length (values_of name.now fields.now) }
{
    let mut count = 0;
    for field in fields {
        if field.name.as_str() == name {
            count += 1;
        }
    }
    count
}

// The value of a field that comes once.
fn only_value<'a>(fields: &'a [Field], name: &str) -> Option<&'a [u8]>
    ensures { option_copied result ≡ only (values_of name.now fields.now) }
{
    if count_of(fields, name) == 1 {
        first_value(fields, name)
    } else {
        None
    }
}

/// How many bytes the body behind a head has: none where the reply is bare, as one to a HEAD, or its status is 204 or 304;
/// else what its one `content-length` says, in 1 to 19 digits. No length where that is missing, comes twice, is no such number
/// or is above the limit. Other fields are not looked at. It takes no memory.
pub fn reply_len(head: &ReplyHead, limit: u64, bare: bool) -> Option<u64>
    ensures exact { result ≡ length_in limit bare head.now }
{
    if bare || is_bodiless(head.status) {
        return Some(0);
    }
    let text = only_value(head.fields.as_slice(), "content-length")?;
    match read_decimal(text) {
        Some(len) if len <= limit => Some(len),
        _ => None,
    }
}
