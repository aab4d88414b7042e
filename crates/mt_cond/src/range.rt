//! Byte ranges over an object of known length.
ghost use Rattle.std.specs.Prelude.{◌≡◌, ◌<◌, ◌↔◌, length, position, IfSome};
ghost use Rattle.mt_cond.specs.Range.{IsRangeAnswer, AsksFor, range_between, range_in, range_written, ranged, is_hyphen};

use mt_bytes::read_decimal;
use mt_types::{Fields, first_value, has_field};

/// A byte range as the field writes it (RFC 9110, section 14.1.2). Places count bytes from 0.
#[derive(Clone, Copy, Debug, PartialEq, Eq)]
pub enum Range {
    /// `bytes=first-last`, both ends in it.
    Between {
        /// The place of the first byte.
        first: u64,
        /// The place of the last byte.
        last: u64,
    },
    /// `bytes=first-`.
    From {
        /// The place of the first byte.
        first: u64,
    },
    /// `bytes=-count`, the last bytes.
    Last {
        /// How many bytes, at most.
        count: u64,
    },
}

/// What a range of an object gets.
#[derive(Clone, Copy, Debug, PartialEq, Eq)]
pub enum Ranged {
    /// The whole object: the range is ignored.
    Whole,
    /// A part of the object.
    Part {
        /// The place of its first byte.
        from: u64,
        /// The place behind its last byte.
        to: u64,
    },
    /// None of its bytes are selected (416).
    CannotMeet,
}

impl Range {
    /// The range that the fields ask for. None where it is to be ignored: where there is no Range or there is
    /// an If-Range, and where the first Range isn't one range of bytes. Takes no memory.
    #[tactic(auto, unfolding(crate::specs::Range::range_in))]
    pub fn read(fields: &Fields) -> Option<Range>
        ensures value { result ≡ range_in fields.now }
        ensures exact { (range : Range) → (result ≡ Some range) ↔ AsksFor fields.now range }
    {
        let fields = fields.as_slice();
        if has_field(fields, "if-range") {
            return None;
        }
        range_written(first_value(fields, "range")?)
    }
}

// The range that a value writes.
fn range_written(value: &[u8]) -> Option<Range>
    ensures { result ≡ range_written value.now }
{
    let ends = value.strip_prefix(b"bytes=")?;
    let place = hyphen_at(ends)?;
    range_between(&ends[..place], &ends[place + 1..])
}

// The place of the first hyphen.
fn hyphen_at(ends: &[u8]) -> Option<usize>
    ensures place { result ≡ position is_hyphen ends.now }
    ensures within { IfSome result (λ place. place < length ends.now) }
{
    ends.iter().position(|b| *b == b'-')
}

// The range between what stands before the hyphen and behind it.
fn range_between(first: &[u8], last: &[u8]) -> Option<Range>
    ensures { result ≡ range_between first.now last.now }
{
    if first.is_empty() {
        let count = read_decimal(last)?;
        return Some(Range::Last { count });
    }
    let first = read_decimal(first)?;
    if last.is_empty() {
        return Some(Range::From { first });
    }
    let last = read_decimal(last)?;
    if first <= last {
        Some(Range::Between { first, last })
    } else {
        None
    }
}

/// What a range of an object of `len` bytes gets. Takes no memory.
pub fn range_of(range: &Range, len: u64) -> Ranged
    ensures value { result ≡ ranged range.now len }
    ensures selected { IsRangeAnswer range.now len result }
{
    match *range {
        Range::Between { first, last } if first <= last && first < len => Ranged::Part {
            from: first,
            to: last.min(len - 1) + 1,
        },
        Range::From { first } if first < len => Ranged::Part {
            from: first,
            to: len,
        },
        // A suffix longer than the object is all of it.
        Range::Last { count } if count > 0 && len > 0 => Ranged::Part {
            from: len.saturating_sub(count),
            to: len,
        },
        Range::Last { count } if count > 0 => Ranged::Whole,
        _ => Ranged::CannotMeet,
    }
}
