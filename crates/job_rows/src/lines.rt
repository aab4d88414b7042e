//! Rows of `mt_split`.
ghost use Rattle.std.specs.Prelude.{◌<◌, IfOk};

use mt_base::Sequence;
use mt_rows::{Row, Stop, put_escaped};
use mt_split::{KeyRule, Span, key_of, route, split};
use std::alloc::{AllocError, Global};

/// A text of a row is shorter than this.
const MOST: usize = 1 << 32;

// The numbers from a place on.
fn numbers(alloc: Global, row: &Row, from: usize) -> Result<Sequence<u32>, Stop> {
    let mut numbers = Sequence::new(alloc);
    for place in from..row.len() {
        put_number(&mut numbers, row, place)?;
    }
    Ok(numbers)
}

fn put_number(numbers: &mut Sequence<u32>, row: &Row, place: usize) -> Result<(), Stop> {
    let number = count(row.number(place)?)?;
    Ok(numbers.push(number)?)
}

// A number that fits.
fn count(number: u64) -> Result<u32, Stop> {
    if number < 1 << 32 {
        Ok(number as u32)
    } else {
        Err(Stop::NoSuchRow)
    }
}

// How many reducers there are, one at least.
fn reducers(row: &Row, place: usize) -> Result<u32, Stop>
    ensures { IfOk result (λ n. 0 < n) }
{
    let n = count(row.number(place)?)?;
    if n > 0 { Ok(n) } else { Err(Stop::NoSuchRow) }
}

// All of a line, or the fields that the words from a place on name: the delimiter, and numbers.
fn rule(alloc: Global, row: &Row, from: usize) -> Result<KeyRule, Stop> {
    if row.len() <= from {
        return Ok(KeyRule::Line);
    }
    match row.bytes(from)? {
        [delimiter] => Ok(KeyRule::Fields {
            delimiter: *delimiter,
            numbers: numbers(alloc, row, from + 1)?,
        }),
        _ => Err(Stop::NoSuchRow),
    }
}

// The lines of each reducer.
fn put_parts(
    alloc: Global,
    text: &[u8],
    n: u32,
    rule: &KeyRule,
    out: &mut String,
) -> Result<(), Stop>
    requires { 0 < n }
{
    if text.len() >= MOST {
        return Err(Stop::NoSuchRow);
    }
    let parts = split(alloc, text, n, rule)?;
    for reducer in 0..n {
        put_part(text, parts.part(reducer), out)?;
    }
    Ok(())
}

// The lines of these spans, in brackets.
fn put_part(text: &[u8], spans: &[Span], out: &mut String) -> Result<(), Stop> {
    out.push('[')?;
    for span in spans {
        put_line(text, span, out)?;
    }
    Ok(out.push(']')?)
}

fn put_line(text: &[u8], span: &Span, out: &mut String) -> Result<(), Stop> {
    match text.get(span.from as usize..span.from as usize + span.len as usize) {
        Some(line) => Ok(put_escaped(out, line)?),
        None => Err(Stop::NoSuchRow),
    }
}

// `route KEY N`
fn put_route(row: &Row, out: &mut String) -> Result<bool, Stop> {
    let n = reducers(row, 2)?;
    write!(out, "{}", route(row.bytes(1)?, n))?;
    Ok(true)
}

fn put_key_of(
    alloc: Global,
    line: &[u8],
    rule: &KeyRule,
    out: &mut String,
) -> Result<(), AllocError> {
    put_escaped(out, key_of(alloc, line, rule)?.as_slice())
}

// `key LINE`, `key LINE DELIMITER NUMBER ..`
fn put_key(alloc: Global, row: &Row, out: &mut String) -> Result<bool, Stop> {
    let line = row.bytes(1)?;
    let rule = rule(alloc, row, 2)?;
    put_key_of(alloc, line, &rule, out)?;
    Ok(true)
}

// `split N TEXT`, `split N TEXT DELIMITER NUMBER ..`
fn put_split(alloc: Global, row: &Row, out: &mut String) -> Result<bool, Stop> {
    let n = reducers(row, 1)?;
    let text = row.bytes(2)?;
    let rule = rule(alloc, row, 3)?;
    put_parts(alloc, text, n, &rule, out)?;
    Ok(true)
}

/// The answer to a row of this crate, if it is one.
pub fn answer(alloc: Global, row: &Row, out: &mut String) -> Result<bool, Stop> {
    match row.text(0)? {
        "route" => put_route(row, out),
        "key" => put_key(alloc, row, out),
        "split" => put_split(alloc, row, out),
        _ => Ok(false),
    }
}
