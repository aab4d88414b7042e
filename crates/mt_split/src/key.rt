//! The key of a line.
ghost use Rattle.std.specs.Prelude.{◌≡◌, ◌++◌, map, IfOk, OnOk};
ghost use Rattle.mt_split.specs.Partition.{content, fields_of, field_at, joined, line_key};

use crate::places::{behind, place_of};
use mt_base::{Bytes, Sequence};
use std::alloc::{AllocError, Global};

/// What of a line is its key. The line feed at a line's end never is.
#[derive(Debug, Drop)]
pub enum KeyRule {
    /// All of it.
    Line,
    /// The fields of these numbers, counted from 1, in this order, with the delimiter between each two. A field is what
    /// stands between two delimiters; one that is not there is empty.
    Fields {
        /// The byte between two fields.
        delimiter: u8,
        /// Which fields, perhaps one several times.
        numbers: Sequence<u32>,
    },
}

/// A line without the line feed at its end.
pub(crate) fn without_line_feed(line: &[u8]) -> &[u8]
    ensures { result.now ≡ content line.now }
{
    let count = line.len();
    if count > 0 && line[count - 1] == b'\n' {
        &line[..count - 1]
    } else {
        line
    }
}

// The field of a number, counted from 1; one that is not there is empty.
fn field(bytes: &[u8], delimiter: u8, number: u32) -> &[u8]
    ensures { result.now ≡ field_at (fields_of delimiter bytes.now) number }
{
    if number == 0 {
        return &[];
    }
    let mut rest = bytes;
    for k in 1..number {
        let end = place_of(delimiter, rest);
        if end >= rest.len() {
            return &[];
        }
        rest = behind(rest, end + 1);
    }
    &rest[..place_of(delimiter, rest)]
}

// Appends the fields of these numbers, with the delimiter between each two.
pub(crate) fn put_fields(
    out: &mut Vec<u8>,
    bytes: &[u8],
    delimiter: u8,
    numbers: &[u32],
) -> Result<(), AllocError>
    ensures { OnOk result (out.new.items ≡ out.old.items ++ joined delimiter (map (field_at (fields_of delimiter bytes.now)) numbers.now)) }
{
    let Some((first, others)) = numbers.split_first() else {
        return Ok(());
    };
    out.extend_from_slice(field(bytes, delimiter, *first))?;
    for number in others {
        out.push(delimiter)?;
        out.extend_from_slice(field(bytes, delimiter, *number))?;
    }
    Ok(())
}

/// The key of a line, by the rule.
pub fn key_of(alloc: Global, line: &[u8], rule: &KeyRule) -> Result<Bytes, AllocError>
    ensures { IfOk result (λ key. key ≡ line_key line.now rule.now) }
{
    let mut key = Vec::new(alloc);
    match rule {
        KeyRule::Line => key.extend_from_slice(without_line_feed(line))?,
        KeyRule::Fields { delimiter, numbers } => {
            put_fields(
                &mut key,
                without_line_feed(line),
                *delimiter,
                numbers.as_slice(),
            )?
        }
    }
    Ok(Bytes::from_vec(key))
}
