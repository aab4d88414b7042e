//! The line of a refusal, from the body of its reply.
ghost use Rattle.std.specs.Prelude.{◌≡◌, IfOk, option_map};
ghost use Rattle.serde_json.specs.View.{view};
ghost use Rattle.mt_script.specs.Ends.{line_of, refusal_in, refusal_line, refused_by, silent, text_at};

use crate::end::{ClientEnd, Closing};
use mt_base::Bytes;
use mt_json::read_value;
use serde_json::Value;
use std::alloc::{AllocError, Global};

// `CODE: MESSAGE`, and a line feed.
fn line_of(alloc: Global, code: &str, message: &str) -> Result<Bytes, AllocError>
    ensures { IfOk result (λ line. line ≡ line_of code.now message.now) }
{
    let mut line = String::from_str(alloc, code)?;
    line.push_str(": ")?;
    line.push_str(message)?;
    line.push_str("\n")?;
    Ok(Bytes::from_vec(line.into_bytes()))
}

// The text at a key.
fn text_at<'a>(value: &'a Value, key: &str) -> Option<&'a str>
    ensures { option_map (λ s. s.now) result ≡ text_at key.now (view value.now) }
{
    value.get(key)?.as_str()
}

// The line of a value that tells a code and a message.
fn refusal_in(alloc: Global, value: &Value) -> Result<Option<Bytes>, AllocError>
    ensures { IfOk result (λ line. line ≡ refusal_in (view value.now)) }
{
    let Some(code) = text_at(value, "code") else {
        return Ok(None);
    };
    match text_at(value, "message") {
        Some(message) => Ok(Some(line_of(alloc, code, message)?)),
        None => Ok(None),
    }
}

// The line of a body that tells a code and a message.
fn refusal_line(alloc: Global, body: &[u8]) -> Result<Option<Bytes>, AllocError>
    ensures { IfOk result (λ line. line ≡ refusal_line body.now) }
{
    match read_value(alloc, body)? {
        Some(value) => refusal_in(alloc, &value),
        None => Ok(None),
    }
}

/// An end without a text.
pub(crate) fn silent(alloc: Global, end: ClientEnd) -> Closing
    ensures { result ≡ silent end }
{
    Closing {
        text: Bytes::from_vec(Vec::new(alloc)),
        end,
    }
}

/// What a run ends with at a reply whose status isn't the wanted one, by its body.
pub(crate) fn refused(alloc: Global, body: &[u8]) -> Result<Closing, AllocError>
    ensures { IfOk result (λ e. e ≡ refused_by body.now) }
{
    match refusal_line(alloc, body)? {
        Some(text) => Ok(Closing {
            text,
            end: ClientEnd::Refused,
        }),
        None => Ok(silent(alloc, ClientEnd::BadReply)),
    }
}
