//! Rows of `mt_certline`. The login is `l`.
ghost use Rattle.mt_certline.specs.Written.{IsShowable};

use mt_certline::{Line, line_text, read_line};
use mt_rows::{Row, Stop, put_escaped};
use std::alloc::Global;

/// Whose names they are.
const LOGIN: &str = "l";

// The form of a line.
fn form(line: &Line) -> &'static str {
    match line {
        Line::Begin { .. } => "begin ",
        Line::Input(_) => "input ",
        Line::Task(_) => "task ",
        Line::Output(_) => "output ",
        Line::End => "end ",
    }
}

// The form of a line, and the line as it is written.
fn put_line(alloc: Global, line: &Line, out: &mut String) -> Result<(), Stop>
    requires { IsShowable line.now }
{
    out.push_str(form(line))?;
    put_escaped(out, line_text(alloc, LOGIN, line)?.as_bytes())?;
    Ok(())
}

// What bytes are read as.
fn put_read(alloc: Global, bytes: &[u8], out: &mut String) -> Result<(), Stop> {
    match read_line(alloc, LOGIN, bytes)? {
        Some(line) => put_line(alloc, &line, out),
        None => {
            out.push_str("no line")?;
            Ok(())
        }
    }
}

/// The answer to a row of this crate; behind its first word the line has this text.
pub fn answer(alloc: Global, text: &str, row: &Row, out: &mut String) -> Result<(), Stop> {
    match row.text(0)? {
        "line" => put_read(alloc, text.as_bytes(), out),
        "line-bytes" => put_read(alloc, row.bytes(1)?, out),
        _ => Err(Stop::NoSuchRow),
    }
}
