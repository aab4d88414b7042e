//! Bytes as words of hexadecimal digits: `00ff`, and `3*00ff` for three times the same.
use mt_rows::{Row, Stop};
use std::alloc::{AllocError, Global};
use std::str;

/// Bytes are repeated at most so often.
const MOST_TIMES: u64 = 100_000;

/// The bytes that the words from a place on stand for.
pub fn bytes_from(alloc: Global, row: &Row, from: usize) -> Result<Vec<u8>, Stop> {
    let mut out = Vec::new(alloc);
    for place in from..row.len() {
        put_word(alloc, &mut out, row.bytes(place)?)?;
    }
    Ok(out)
}

fn put_word(alloc: Global, out: &mut Vec<u8>, word: &[u8]) -> Result<(), Stop> {
    let Some(place) = word.iter().position(|b| *b == b'*') else {
        return put_digits(out, word);
    };
    let (number, behind) = word.split_at(place);
    let times = times_of(number)?;
    put_times(alloc, out, times, behind.strip_prefix(b"*").unwrap_or(b""))
}

fn put_times(alloc: Global, out: &mut Vec<u8>, times: u64, digits: &[u8]) -> Result<(), Stop> {
    let mut piece = Vec::new(alloc);
    put_digits(&mut piece, digits)?;
    for _ in 0..times {
        out.extend_from_slice(&piece)?;
    }
    Ok(())
}

fn times_of(number: &[u8]) -> Result<u64, Stop> {
    match str::from_utf8(number) {
        Ok(text) => match text.parse::<u64>() {
            Ok(times) if times <= MOST_TIMES => Ok(times),
            _ => Err(Stop::NoSuchRow),
        },
        Err(_) => Err(Stop::NoSuchRow),
    }
}

fn put_digits(out: &mut Vec<u8>, digits: &[u8]) -> Result<(), Stop> {
    let mut high = None;
    for byte in digits {
        let digit = digit(*byte)?;
        match high {
            None => high = Some(digit),
            Some(first) => {
                out.push(first.wrapping_mul(16) | digit)?;
                high = None;
            }
        }
    }
    match high {
        None => Ok(()),
        Some(_) => Err(Stop::NoSuchRow),
    }
}

fn digit(byte: u8) -> Result<u8, Stop> {
    match byte {
        b'0'..=b'9' => Ok(byte - b'0'),
        b'a'..=b'f' => Ok(byte - b'a' + 10),
        _ => Err(Stop::NoSuchRow),
    }
}

/// Appends the digits of bytes.
pub fn put_hex(out: &mut String, bytes: &[u8]) -> Result<(), AllocError> {
    for byte in bytes {
        write!(out, "{byte:02x}")?;
    }
    Ok(())
}
