//! Which texts values may hold. No call takes memory.
ghost use Rattle.std.specs.Prelude.{◌≡◌, nat_le};
ghost use Rattle.std.specs.List.{list_all};
ghost use Rattle.mt_types.specs.Limits.{is_by_name, is_command_line, is_content_type, is_job_name, is_line_text, is_metadata_name, is_plain_text, is_space, is_token_byte, is_visible, metadata_size};

use crate::limits::{LONGEST_COMMAND_LINE, LONGEST_CONTENT_TYPE, LONGEST_NAME, TOKEN_MARKS};
use crate::object::Field;

/// What stands between the visible bytes and the control characters.
const SPACE: u8 = 32;

/// The last visible byte.
const TILDE: u8 = 126;

/// What ends a posted line.
const LINE_FEED: u8 = 10;

/// Whether all bytes are visible or spaces, with no space at either end.
#[tactic(auto, unfolding(crate::specs::Limits::is_plain_text))]
pub fn is_plain_text(text: &[u8]) -> bool
    ensures { result ≡ is_plain_text text.now }
{
    are_visible(text) && !is_space(text.first().copied()) && !is_space(text.last().copied())
}

fn are_visible(text: &[u8]) -> bool
    ensures { result ≡ list_all is_visible text.now }
{
    text.iter().all(|b| *b >= SPACE && *b <= TILDE)
}

fn is_space(byte: Option<u8>) -> bool
    ensures { result ≡ is_space byte }
{
    match byte {
        Some(b) => b == SPACE,
        None => false,
    }
}

/// Whether it is a content type.
pub fn is_content_type(text: &[u8]) -> bool
    ensures { result ≡ is_content_type text.now }
{
    text.len() <= LONGEST_CONTENT_TYPE && is_plain_text(text)
}

/// Whether it is the name of a job.
pub fn is_job_name(text: &[u8]) -> bool
    ensures { result ≡ is_job_name text.now }
{
    text.len() <= LONGEST_NAME
}

/// Whether it is a command line.
pub fn is_command_line(text: &[u8]) -> bool
    ensures { result ≡ is_command_line text.now }
{
    !text.is_empty() && text.len() <= LONGEST_COMMAND_LINE && !text.contains(&0)
}

/// Whether it is a posted line that may be no path.
pub fn is_line_text(text: &[u8]) -> bool
    ensures { result ≡ is_line_text text.now }
{
    !text.is_empty() && !text.contains(&LINE_FEED)
}

/// Whether it is the name of a piece of metadata.
pub fn is_metadata_name(text: &[u8]) -> bool
    ensures { result ≡ is_metadata_name text.now }
{
    text.starts_with(b"m-") && are_token_bytes(text)
}

fn are_token_bytes(text: &[u8]) -> bool
    ensures { result ≡ list_all is_token_byte text.now }
{
    text.iter().all(|b| is_token_byte(*b))
}

fn is_token_byte(b: u8) -> bool
    ensures { result ≡ is_token_byte b }
{
    (b'a' <= b && b <= b'z') || (b'0' <= b && b <= b'9') || TOKEN_MARKS.contains(&b)
}

/// Whether names and values together have at most so many bytes.
pub fn is_metadata_within(fields: &[Field], room: usize) -> bool
    ensures { result ≡ nat_le (metadata_size fields.now) room }
{
    match fields {
        [] => true,
        [first, rest @ ..] => {
            if first.name.len() > room || first.value.len() > room - first.name.len() {
                return false;
            }
            is_metadata_within(rest, room - first.name.len() - first.value.len())
        }
    }
}

/// Whether fields stand by their names.
pub fn are_by_name(fields: &[Field]) -> bool
    ensures { result ≡ is_by_name fields.now }
{
    match fields {
        [] => true,
        [_] => true,
        [first, second, ..] => first.name <= second.name && are_by_name(&fields[1..]),
    }
}
