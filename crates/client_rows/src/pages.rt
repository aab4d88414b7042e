//! Rows of `mt_page`. The login is `l`.
use mt_page::{PageRow, RowKind, read_page};
use mt_path::Path;
use mt_rows::{Row, Stop, put_escaped};
use std::alloc::Global;

/// Whose names the paths are.
const LOGIN: &str = "l";

// A row: its name, with a slash behind that of a directory.
fn put_row(row: &PageRow, out: &mut String) -> Result<(), Stop> {
    out.push(' ')?;
    put_escaped(out, row.name.as_bytes())?;
    match row.kind {
        RowKind::Directory => out.push('/')?,
        RowKind::Object => {}
    }
    Ok(())
}

// The rows of the page that bytes are.
fn put_page(
    alloc: Global,
    dir: &Path,
    marker: &[u8],
    bytes: &[u8],
    out: &mut String,
) -> Result<(), Stop> {
    match read_page(alloc, dir, marker, bytes)? {
        Some(rows) => {
            write!(out, "{}:", rows.len())?;
            for row in rows.as_slice() {
                put_row(row, out)?;
            }
        }
        None => out.push_str("none")?,
    }
    Ok(())
}

/// The answer to a row of this crate: a directory, a marker, and the bytes of a page.
pub fn answer(alloc: Global, row: &Row, out: &mut String) -> Result<(), Stop> {
    let marker = row.bytes(2)?;
    let bytes = row.bytes(3)?;
    match Path::plain(alloc, LOGIN, row.bytes(1)?) {
        Ok(dir) => put_page(alloc, &dir, marker, bytes, out),
        Err(_) => Err(Stop::NoSuchRow),
    }
}
