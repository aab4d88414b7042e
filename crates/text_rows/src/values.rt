//! The calls of `mt_base`: the lists at numbers and at texts.
use crate::put_shown;
use mt_base::{Bytes, Duplicate, Sequence, Text};
use mt_rows::{Row, Stop, put_escaped};
use std::alloc::Global;

/// The word between two lists.
const BETWEEN: &[u8] = b"and";

/// Answers a row of this module.
pub fn answer(alloc: Global, row: &Row, out: &mut String) -> Result<(), Stop> {
    match row.text(0)? {
        "bytes-value" => put_bytes_value(alloc, row.bytes(1)?, out),
        "text-value" => put_text_value(alloc, row.text(1)?, out),
        "list" => put_list(alloc, row, out),
        "copy-number" => put_copy(alloc, row.text(1)?, row.number(2)?, out),
        "two-values" => put_two_values(alloc, row, out),
        "two-lists" => put_two_lists(alloc, row, out),
        _ => Err(Stop::NoSuchRow),
    }
}

// Bytes, the bytes of their copy's vector, and whether the copy is equal.
fn put_bytes_value(alloc: Global, word: &[u8], out: &mut String) -> Result<(), Stop> {
    let bytes = Bytes::from_slice(alloc, word)?;
    let copy = bytes.copy(alloc)?;
    let is_equal = copy == bytes;
    let again = Bytes::from_vec(copy.into_vec());
    put_value(
        out,
        bytes.len(),
        bytes.as_slice(),
        again.as_slice(),
        is_equal,
    )
}

// A text, the text of its copy's string, and whether the copy is equal.
fn put_text_value(alloc: Global, word: &str, out: &mut String) -> Result<(), Stop> {
    let text = Text::from_str(alloc, word)?;
    let copy = text.copy(alloc)?;
    let is_equal = copy == text;
    let again = Text::from_string(copy.into_string());
    put_value(
        out,
        text.len(),
        text.as_bytes(),
        again.as_str().as_bytes(),
        is_equal,
    )
}

fn put_value(
    out: &mut String,
    len: usize,
    bytes: &[u8],
    again: &[u8],
    is_equal: bool,
) -> Result<(), Stop> {
    write!(out, "{len} ")?;
    put_escaped(out, bytes)?;
    out.push_str(", again ")?;
    put_escaped(out, again)?;
    Ok(write!(out, ", copy equal {is_equal}")?)
}

// The numbers from a place up to another, `none` for none.
fn numbers_in(
    alloc: Global,
    row: &Row,
    from: usize,
    to: usize,
) -> Result<Sequence<Option<u64>>, Stop> {
    let mut numbers = Sequence::new(alloc);
    for place in from..to {
        match row.text(place)? {
            "none" => numbers.push(None)?,
            _ => numbers.push(Some(row.number(place)?))?,
        }
    }
    Ok(numbers)
}

// The texts from a place up to another.
fn texts_in(alloc: Global, row: &Row, from: usize, to: usize) -> Result<Sequence<Text>, Stop> {
    let mut texts = Sequence::new(alloc);
    for place in from..to {
        texts.push(Text::from_str(alloc, row.text(place)?)?)?;
    }
    Ok(texts)
}

// A list, its copy, the copy with one value more, and the list of the first copy's vector.
fn put_list(alloc: Global, row: &Row, out: &mut String) -> Result<(), Stop> {
    let list = numbers_in(alloc, row, 1, row.len())?;
    let copy = list.copy(alloc)?;
    let mut longer = list.copy(alloc)?;
    longer.push(None)?;
    let is_equal = copy == list;
    let again = Sequence::from_vec(copy.into_vec());
    Ok(write!(
        out,
        "{} {:?}, copy equal {is_equal}, longer equal {}, again {:?}",
        list.len(),
        list.as_slice(),
        longer == list,
        again.as_slice()
    )?)
}

// The copy of a number of this many bits.
fn put_copy(alloc: Global, width: &str, number: u64, out: &mut String) -> Result<(), Stop> {
    match width {
        "8" if number < 1 << 8 => put_shown(out, &(number as u8).copy(alloc)?),
        "32" if number < 1 << 32 => put_shown(out, &(number as u32).copy(alloc)?),
        "64" => put_shown(out, &number.copy(alloc)?),
        _ => Err(Stop::NoSuchRow),
    }
}

// How two words compare, as texts and as bytes.
fn put_two_values(alloc: Global, row: &Row, out: &mut String) -> Result<(), Stop> {
    let one = Text::from_str(alloc, row.text(1)?)?;
    let two = Text::from_str(alloc, row.text(2)?)?;
    out.push_str("texts ")?;
    put_compared(out, &one, &two)?;
    out.push_str(", bytes ")?;
    put_two_bytes(alloc, row, out)
}

fn put_two_bytes(alloc: Global, row: &Row, out: &mut String) -> Result<(), Stop> {
    let one = Bytes::from_slice(alloc, row.bytes(1)?)?;
    let two = Bytes::from_slice(alloc, row.bytes(2)?)?;
    put_compared(out, &one, &two)
}

// How two values compare, and whether they are equal.
fn put_compared<T: Ord>(out: &mut String, one: &T, two: &T) -> Result<(), Stop> {
    Ok(write!(out, "{:?}, equal {}", one.cmp(two), one == two)?)
}

// The place of the word between two lists.
fn place_between(row: &Row) -> Result<usize, Stop> {
    for place in 2..row.len() {
        if row.bytes(place)? == BETWEEN {
            return Ok(place);
        }
    }
    Err(Stop::NoSuchRow)
}

// How two lists of numbers, or of texts, compare.
fn put_two_lists(alloc: Global, row: &Row, out: &mut String) -> Result<(), Stop> {
    let place = place_between(row)?;
    match row.text(1)? {
        "numbers" => put_two_of_numbers(alloc, row, place, out),
        "texts" => put_two_of_texts(alloc, row, place, out),
        _ => Err(Stop::NoSuchRow),
    }
}

fn put_two_of_numbers(
    alloc: Global,
    row: &Row,
    place: usize,
    out: &mut String,
) -> Result<(), Stop> {
    let one = numbers_in(alloc, row, 2, place)?;
    let two = numbers_in(alloc, row, place.wrapping_add(1), row.len())?;
    put_compared(out, &one, &two)
}

fn put_two_of_texts(alloc: Global, row: &Row, place: usize, out: &mut String) -> Result<(), Stop> {
    let one = texts_in(alloc, row, 2, place)?;
    let two = texts_in(alloc, row, place.wrapping_add(1), row.len())?;
    put_compared(out, &one, &two)
}
