//! The fields of a head, by the spans that its parser found.
ghost use Rattle.std.specs.Prelude.{◌≡◌, ◌≤◌, map, length, All, IsUtf8, IfOk};
ghost use Rattle.httparse.specs.Spans.{IsHeaderWithin, span_bytes};
ghost use Rattle.mt_http.specs.Reading.{field_at, IsNamed};

use httparse::spans::{HeaderSpan, Span};
use mt_base::{Bytes, Sequence, Text};
use mt_types::Field;
use std::alloc::{AllocError, Global};

// The text that a span covers.
fn text_at(head: &[u8], span: Span) -> &str
    requires ordered { span.start ≤ span.end }
    requires in_range { span.end ≤ length head.now }
    requires text { IsUtf8 (span_bytes head.now span) }
    ensures { result.now ≡ span_bytes head.now span }
{
    match str::from_utf8(span.of(head)) {
        Ok(text) => text,
        Err(_) => unreachable!(),
    }
}

fn read_field(alloc: Global, head: &[u8], span: HeaderSpan) -> Result<Field, AllocError>
    requires within { IsHeaderWithin (length head.now) span }
    requires named { IsNamed head.now span }
    ensures { IfOk result (λ field. field ≡ field_at head.now span) }
{
    let name = text_at(head, span.name).to_ascii_lowercase(alloc)?;
    let value = Bytes::from_slice(alloc, span.value.of(head))?;
    Ok(Field {
        name: Text::from_string(name),
        value,
    })
}

/// The fields that these spans cover, their names in lower case.
pub fn read_fields(
    alloc: Global,
    head: &[u8],
    spans: &[HeaderSpan],
) -> Result<Sequence<Field>, AllocError>
    requires within { All (IsHeaderWithin (length head.now)) spans.now }
    requires named { All (IsNamed head.now) spans.now }
    ensures { IfOk result (λ fields. fields ≡ map (field_at head.now) spans.now) }
{
    let mut fields = Vec::with_capacity(alloc, spans.len())?;
    for span in spans {
        fields.push(read_field(alloc, head, *span)?)?;
    }
    Ok(Sequence::from_vec(fields))
}
