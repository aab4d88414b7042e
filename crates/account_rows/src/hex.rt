//! Bytes as words of hexadecimal digits: `00ff`.
use mt_rows::{Row, Stop};
use std::alloc::Global;

/// The bytes that the words from a place on stand for.
pub fn bytes_from(alloc: Global, row: &Row, from: usize) -> Result<Vec<u8>, Stop> {
    let mut out = Vec::new(alloc);
    for place in from..row.len() {
        put_digits(&mut out, row.bytes(place)?)?;
    }
    Ok(out)
}

fn put_digits(out: &mut Vec<u8>, digits: &[u8]) -> Result<(), Stop> {
    let mut high = None;
    for byte in digits {
        let digit = digit(*byte)?;
        match high {
            None => high = Some(digit),
            Some(first) => {
                out.push(first.wrapping_mul(16) | digit)?;
                high = None;
            }
        }
    }
    match high {
        None => Ok(()),
        Some(_) => Err(Stop::NoSuchRow),
    }
}

fn digit(byte: u8) -> Result<u8, Stop> {
    match byte {
        b'0'..=b'9' => Ok(byte - b'0'),
        b'a'..=b'f' => Ok(byte - b'a' + 10),
        _ => Err(Stop::NoSuchRow),
    }
}
