//! The calls of `mt_bytes`.
use crate::{put_shown, values};
use mt_bytes::{
    Cursor, Short, laws, put_bytes, put_decimal, put_u8, put_u16, put_u32, put_u64, read_decimal,
};
use mt_rows::{Row, Stop, put_escaped};
use std::alloc::Global;

/// Answers a row of this module, or else of the next.
pub fn answer(alloc: Global, row: &Row, out: &mut String) -> Result<(), Stop> {
    match row.text(0)? {
        "put" => put_written(alloc, row, out),
        "take" => put_taken(row, out),
        "decimal" => put_shown(out, &read_decimal(row.bytes(1)?)),
        "number-again" => put_number_again(alloc, row, out),
        "decimal-again" => put_decimal_again(alloc, row.number(1)?, out),
        _ => values::answer(alloc, row, out),
    }
}

fn put_number_again(alloc: Global, row: &Row, out: &mut String) -> Result<(), Stop> {
    let (number, rest) = laws::number_again(alloc, row.number(1)?, row.bytes(2)?)?;
    write!(out, "{number} ")?;
    Ok(put_escaped(out, &rest)?)
}

// A row may ask for decimals of at most 19 digits.
fn put_decimal_again(alloc: Global, number: u64, out: &mut String) -> Result<(), Stop> {
    if number >= 10_000_000_000_000_000_000 {
        return Err(Stop::NoSuchRow);
    }
    put_shown(out, &laws::decimal_again(alloc, number)?)
}

fn put_written(alloc: Global, row: &Row, out: &mut String) -> Result<(), Stop> {
    let bytes = put_all(alloc, row)?;
    Ok(put_escaped(out, &bytes)?)
}

// What the words of a row put, one behind the other: a width in bits and a number, or `bytes` and a piece.
fn put_all(alloc: Global, row: &Row) -> Result<Vec<u8>, Stop> {
    let mut bytes = Vec::new(alloc);
    for place in (1..row.len()).step_by(2) {
        let behind = place.wrapping_add(1);
        match row.text(place)? {
            "bytes" => put_bytes(&mut bytes, row.bytes(behind)?)?,
            width => put(&mut bytes, width, row.number(behind)?)?,
        }
    }
    Ok(bytes)
}

// A number as it is put in a width of bits, or as a decimal.
fn put(bytes: &mut Vec<u8>, width: &str, number: u64) -> Result<(), Stop> {
    match width {
        "8" if number < 1 << 8 => put_u8(bytes, number as u8)?,
        "16" if number < 1 << 16 => put_u16(bytes, number as u16)?,
        "32" if number < 1 << 32 => put_u32(bytes, number as u32)?,
        "64" => put_u64(bytes, number)?,
        "decimal" => put_decimal(bytes, number)?,
        _ => return Err(Stop::NoSuchRow),
    }
    Ok(())
}

// The first word behind the call is bytes, which the other words take from the front.
fn put_taken(row: &Row, out: &mut String) -> Result<(), Stop> {
    let mut cursor = Cursor::new(row.bytes(1)?);
    for place in 2..row.len() {
        put_next(&mut cursor, row, place, out)?;
        out.push_str(", ")?;
    }
    Ok(write!(out, "end {}", cursor.at_end())?)
}

// What a cursor takes next: a number of so many bits, or so many bytes.
fn put_next(
    cursor: &mut Cursor<'_>,
    row: &Row,
    place: usize,
    out: &mut String,
) -> Result<(), Stop> {
    match row.text(place)? {
        "8" => put_number(out, cursor.u8().map(u64::from)),
        "16" => put_number(out, cursor.u16().map(u64::from)),
        "32" => put_number(out, cursor.u32().map(u64::from)),
        "64" => put_number(out, cursor.u64()),
        _ => match cursor.bytes(row.number(place)? as usize) {
            Ok(piece) => Ok(put_escaped(out, piece)?),
            Err(short) => put_shown(out, &short),
        },
    }
}

fn put_number(out: &mut String, number: Result<u64, Short>) -> Result<(), Stop> {
    match number {
        Ok(number) => put_shown(out, &number),
        Err(short) => put_shown(out, &short),
    }
}
