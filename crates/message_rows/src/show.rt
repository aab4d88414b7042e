//! Bytes and fields as text.
use md5::{Digest, Md5};
use mt_rows::put_escaped;
use mt_types::Field;
use std::alloc::AllocError;

/// Longer bytes are shown by their number and their digest.
const LONGEST: usize = 1_024;

/// Appends bytes as a table shows them, or their number and their MD5 (RFC 1321) where they are many.
pub fn put_bytes(out: &mut String, bytes: &[u8]) -> Result<(), AllocError> {
    if bytes.len() <= LONGEST {
        return put_escaped(out, bytes);
    }
    write!(out, "({} bytes, md5 ", bytes.len())?;
    let digest: [u8; 16] = Md5::digest(bytes);
    for byte in digest {
        write!(out, "{byte:02x}")?;
    }
    out.push(')')
}

/// Appends bytes in quotes.
pub fn put_quoted(out: &mut String, bytes: &[u8]) -> Result<(), AllocError> {
    out.push('"')?;
    put_bytes(out, bytes)?;
    out.push('"')
}

/// Appends fields, each behind a semicolon.
pub fn put_fields(out: &mut String, fields: &[Field]) -> Result<(), AllocError> {
    for field in fields {
        out.push_str("; ")?;
        out.push_str(field.name.as_str())?;
        out.push_str(": ")?;
        put_bytes(out, field.value.as_slice())?;
    }
    Ok(())
}

/// Appends a text line by line, each behind a line feed: `<` and the line where it ends with CR LF, which is not shown,
/// and `<|` and all that there is of another. A blank at the end of a line is `\s`.
pub fn put_text(out: &mut String, text: &[u8]) -> Result<(), AllocError> {
    for line in text.split_inclusive(|b| *b == b'\n') {
        match line.strip_suffix(b"\r\n") {
            Some(line) => put_line(out, "\n    <", line)?,
            None => put_line(out, "\n    <|", line)?,
        }
    }
    Ok(())
}

// A mark, and a line behind a blank where it has bytes.
fn put_line(out: &mut String, mark: &str, line: &[u8]) -> Result<(), AllocError> {
    out.push_str(mark)?;
    if line.is_empty() {
        return Ok(());
    }
    out.push(' ')?;
    match line.strip_suffix(b" ") {
        Some(front) => {
            put_bytes(out, front)?;
            out.push_str("\\s")
        }
        None => put_bytes(out, line),
    }
}
