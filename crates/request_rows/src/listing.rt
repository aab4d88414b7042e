//! The lines of pages.
ghost use Rattle.std.specs.Prelude.{◌≤◌, IfOk};

use mt_live::page_line;
use mt_rows::{Row, Stop, put_lines};
use mt_types::{Body, Entry, LAST_MOMENT, NUMBERS_END, Object, Sequence, Text};
use std::alloc::Global;

/// Answers a row of this module.
pub fn answer(alloc: Global, row: &Row, out: &mut String) -> Result<(), Stop> {
    match row.text(0)? {
        "directory" => put_directory(alloc, row, out),
        "file" => put_object(alloc, row, out),
        _ => Err(Stop::NoSuchRow),
    }
}

fn mtime_at(row: &Row, place: usize) -> Result<u64, Stop>
    ensures { IfOk result (λ mtime. mtime ≤ LAST_MOMENT) }
{
    match row.number(place)? {
        mtime if mtime <= LAST_MOMENT => Ok(mtime),
        _ => Err(Stop::NoSuchRow),
    }
}

// `directory NAME MTIME`: its line.
fn put_directory(alloc: Global, row: &Row, out: &mut String) -> Result<(), Stop> {
    let mtime = mtime_at(row, 2)?;
    let entry = Entry::Directory { mtime };
    let line = page_line(alloc, row.text(1)?, &entry)?;
    put_page(line.as_bytes(), out)
}

// `file NAME NUMBER MTIME SIZE`: the line of an object.
fn put_object(alloc: Global, row: &Row, out: &mut String) -> Result<(), Stop> {
    let number = row.number(2)?;
    if number >= NUMBERS_END {
        return Err(Stop::NoSuchRow);
    }
    let mtime = mtime_at(row, 3)?;
    let body = Body {
        first: 9,
        len: row.number(4)?,
        md5: [0; 16],
    };
    let content_type = Text::from_str(alloc, "text/plain")?;
    let entry = Entry::Object(Object {
        number,
        body,
        content_type,
        durability: None,
        metadata: Sequence::new(alloc),
        mtime,
    });
    let line = page_line(alloc, row.text(1)?, &entry)?;
    put_page(line.as_bytes(), out)
}

fn put_page(text: &[u8], out: &mut String) -> Result<(), Stop> {
    write!(out, "{} bytes", text.len())?;
    Ok(put_lines(out, text)?)
}
