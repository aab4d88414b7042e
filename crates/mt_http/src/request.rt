//! What the head of a request says (RFC 9112, sections 3 and 5).
ghost use Rattle.std.specs.Prelude.{◌≡◌, ◌≤◌, Some, None, map, length, All, IsUtf8, IfOk, IfSome, IfNone};
ghost use Rattle.std.specs.Str.{str_to_ascii_lowercase};
ghost use Rattle.httparse.specs.Grammar.{RequestHead};
ghost use Rattle.httparse.specs.Spans.{IsHeaderWithin, IsRequestAt, IsRequestWithin, span_bytes};
ghost use Rattle.mt_http.specs.Framing.{IsRequestHeadOf};
ghost use Rattle.mt_http.specs.Message.{head_of};
ghost use Rattle.mt_http.specs.Reading.{field_at, IsNamed};

use crate::framing::read_framing;
use crate::message::Head;
use httparse::Status;
use httparse::spans::{EMPTY_HEADER_SPAN, HeaderSpan, RequestSpans, Span, parse_request};
use mt_base::{Bytes, Sequence, Text};
use mt_types::Field;
use std::alloc::{AllocError, Global};

/// A head has no more fields than this.
const FIELD_LIMIT: usize = 100;

// The text that a span covers.
fn text_at(head: &[u8], span: Span) -> &str
    requires ordered { span.start ≤ span.end }
    requires in_range { span.end ≤ length head.now }
    requires text { IsUtf8 (span_bytes head.now span) }
    ensures { result.now ≡ span_bytes head.now span }
{
    match str::from_utf8(span.of(head)) {
        Ok(text) => text,
        Err(_) => unreachable!(),
    }
}

fn read_field(alloc: Global, head: &[u8], span: HeaderSpan) -> Result<Field, AllocError>
    requires within { IsHeaderWithin (length head.now) span }
    requires named { IsNamed head.now span }
    ensures { IfOk result (λ field. field ≡ field_at head.now span) }
{
    let name = text_at(head, span.name).to_ascii_lowercase(alloc)?;
    let value = Bytes::from_slice(alloc, span.value.of(head))?;
    Ok(Field {
        name: Text::from_string(name),
        value,
    })
}

fn read_fields(
    alloc: Global,
    head: &[u8],
    spans: &[HeaderSpan],
) -> Result<Sequence<Field>, AllocError>
    requires within { All (IsHeaderWithin (length head.now)) spans.now }
    requires named { All (IsNamed head.now) spans.now }
    ensures { IfOk result (λ fields. fields ≡ map (field_at head.now) spans.now) }
{
    let mut fields = Vec::with_capacity(alloc, spans.len())?;
    for span in spans {
        fields.push(read_field(alloc, head, *span)?)?;
    }
    Ok(Sequence::from_vec(fields))
}

// What a head says, of which the parser found these parts.
fn read_found(
    alloc: Global,
    head: &[u8],
    parts: RequestSpans,
    spans: &[HeaderSpan],
) -> Result<Option<Head>, AllocError>
    requires within { IsRequestWithin head.now spans.now parts }
    requires reads { (h : RequestHead) × IsRequestAt head.now spans.now parts h }
    ensures { IfOk result (λ says. (h : RequestHead)
        → IsRequestAt head.now spans.now parts h → says ≡ head_of h) }
{
    let fields = read_fields(alloc, head, &spans[..parts.headers])?;
    match read_framing(fields.as_slice()) {
        Some(framing) => Ok(Some(Head {
            method: Text::from_str(alloc, text_at(head, parts.method))?,
            target: Bytes::from_slice(alloc, parts.path.of(head))?,
            minor: parts.version,
            fields,
            framing,
        })),
        None => Ok(None),
    }
}

/// What a head says, or none where the bytes are not, as a whole, one request head, or its framing is refused.
pub(crate) fn read_request(alloc: Global, head: &[u8]) -> Result<Option<Head>, AllocError>
    ensures some { IfOk result (λ found. IfSome found (λ says. (h : RequestHead)
        × IsRequestHeadOf head.now h × (head_of h ≡ Some says))) }
    ensures none { IfOk result (λ found. IfNone found
        ((h : RequestHead) → IsRequestHeadOf head.now h → head_of h ≡ None)) }
{
    let mut spans = [EMPTY_HEADER_SPAN; FIELD_LIMIT];
    match parse_request(head, &mut spans) {
        Ok(Status::Complete(parts)) if parts.len == head.len() => {
            read_found(alloc, head, parts, &spans)
        }
        _ => Ok(None),
    }
}
