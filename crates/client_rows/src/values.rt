//! Rows of `mt_json`.
use mt_json::{first_line, read_value};
use mt_rows::{Row, Stop, put_escaped};
use std::alloc::Global;

// The value that bytes are, as compact JSON.
fn put_value(alloc: Global, bytes: &[u8], out: &mut String) -> Result<(), Stop> {
    match read_value(alloc, bytes)? {
        Some(value) => put_escaped(out, value.to_string(alloc)?.as_bytes())?,
        None => out.push_str("none")?,
    }
    Ok(())
}

// The first line of bytes, and what stands behind it.
fn put_first(bytes: &[u8], out: &mut String) -> Result<(), Stop> {
    match first_line(bytes) {
        Some((line, rest)) => {
            out.push('[')?;
            put_escaped(out, line)?;
            out.push_str("] [")?;
            put_escaped(out, rest)?;
            out.push(']')?;
        }
        None => out.push_str("none")?,
    }
    Ok(())
}

/// The answer to a row of this crate; behind its first word the line has this text.
pub fn answer(alloc: Global, text: &str, row: &Row, out: &mut String) -> Result<(), Stop> {
    match row.text(0)? {
        "value" => put_value(alloc, text.as_bytes(), out),
        "value-bytes" => put_value(alloc, row.bytes(1)?, out),
        "first" => put_first(row.bytes(1)?, out),
        _ => Err(Stop::NoSuchRow),
    }
}
