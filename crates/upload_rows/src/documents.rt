//! Rows of `mt_uploaddoc`. The login is `l`.
ghost use Rattle.std.specs.Prelude.{◌≡◌, ◌<◌, ◌^◌, IfOk};

use mt_base::{Sequence, Text};
use mt_path::Path;
use mt_rows::{Row, Stop, put_escaped};
use mt_types::{PartRow, PartRows, Stage, Upload};
use mt_uploaddoc::{UploadDocument, read_numbers, read_upload, state_text};
use std::alloc::{AllocError, Global};

/// Whose names the paths are.
const LOGIN: &str = "l";

// What stands behind the first word of a line, as it stands.
fn behind(line: &str) -> &str {
    match line.split_once(' ') {
        Some((_call, rest)) => rest,
        None => "",
    }
}

fn put_path(alloc: Global, path: &Path, out: &mut String) -> Result<(), AllocError> {
    put_escaped(out, path.print(alloc, LOGIN)?.as_bytes())
}

fn put_document(
    alloc: Global,
    document: &UploadDocument,
    out: &mut String,
) -> Result<(), AllocError> {
    put_path(alloc, &document.path, out)?;
    out.push_str(" \"")?;
    put_escaped(out, document.content_type.as_bytes())?;
    out.push('"')
}

// The upload that bytes ask for.
fn put_upload(alloc: Global, bytes: &[u8], out: &mut String) -> Result<(), AllocError> {
    match read_upload(alloc, LOGIN, bytes)? {
        Some(document) => put_document(alloc, &document, out),
        None => out.push_str("none"),
    }
}

// A number, and how often it stands there.
fn put_run(number: u64, times: u64, out: &mut String) -> Result<(), AllocError> {
    if times > 1 {
        return write!(out, " {number}*{times}");
    }
    write!(out, " {number}")
}

// How many numbers, and they, equal ones behind one another as one.
fn put_runs(numbers: &[u64], out: &mut String) -> Result<(), AllocError> {
    write!(out, "{}:", numbers.len())?;
    let mut times = 0u64;
    for (place, number) in numbers.iter().enumerate() {
        times = times.saturating_add(1);
        if numbers.get(place + 1) != Some(number) {
            put_run(*number, times, out)?;
            times = 0;
        }
    }
    Ok(())
}

// The numbers of the parts that bytes list.
fn put_numbers(alloc: Global, bytes: &[u8], out: &mut String) -> Result<(), AllocError> {
    match read_numbers(alloc, bytes)? {
        Some(numbers) => put_runs(numbers.as_slice(), out),
        None => out.push_str("none"),
    }
}

// Appends a document that lists a text so many times.
fn put_list(document: &mut String, count: u64, text: &str) -> Result<(), AllocError> {
    document.push_str("{\"parts\":[")?;
    for place in 0..count {
        document.push_str(if place > 0 { "," } else { "" })?;
        write!(document, "\"{text}\"")?;
    }
    document.push_str("]}")
}

// Such a document.
fn listed(alloc: Global, count: u64, text: &str) -> Result<String, AllocError> {
    let mut document = String::new(alloc);
    put_list(&mut document, count, text)?;
    Ok(document)
}

// The numbers of such a document.
fn put_listed(alloc: Global, row: &Row, out: &mut String) -> Result<(), Stop> {
    let count = row.number(1)?;
    let document = listed(alloc, count, row.text(2)?)?;
    Ok(put_numbers(alloc, document.as_bytes(), out)?)
}

// So many parts.
fn parts(alloc: Global, count: u64) -> Result<PartRows<u64>, Stop> {
    let mut parts = Sequence::new(alloc);
    for place in 0..count {
        parts.push(PartRow {
            index: 0,
            number: place,
            body: 0,
        })?;
    }
    Ok(parts)
}

fn stage(word: &str) -> Result<Stage, Stop> {
    match word {
        "open" => Ok(Stage::Open),
        "committed" => Ok(Stage::Committed),
        "aborted" => Ok(Stage::Aborted),
        _ => Err(Stop::NoSuchRow),
    }
}

// The number of an upload.
fn number(row: &Row) -> Result<u64, Stop>
    ensures { IfOk result (λ n. n < 2 ^ 62) }
{
    let number = row.number(1)?;
    if number < 1 << 62 {
        Ok(number)
    } else {
        Err(Stop::NoSuchRow)
    }
}

// The path of a word.
fn path_at(alloc: Global, row: &Row) -> Result<Path, Stop> {
    match Path::plain(alloc, LOGIN, row.bytes(2)?) {
        Ok(path) => Ok(path),
        Err(_) => Err(Stop::NoSuchRow),
    }
}

// An upload of this number and stage, of the path and the number of parts of a row.
fn upload_of(alloc: Global, row: &Row, number: u64, stage: Stage) -> Result<Upload<u64>, Stop>
    ensures { IfOk result (λ u. u.number ≡ number) }
{
    let parts = parts(alloc, row.number(4)?)?;
    let path = path_at(alloc, row)?;
    let content_type = Text::from_str(alloc, "")?;
    Ok(Upload {
        number,
        path,
        content_type,
        moment: 0,
        parts,
        stage,
    })
}

// How an upload stands.
fn put_stand(alloc: Global, upload: &Upload<u64>, out: &mut String) -> Result<(), AllocError>
    requires { upload.now.number < 2 ^ 62 }
{
    put_escaped(out, state_text(alloc, LOGIN, upload)?.as_slice())
}

// How an upload stands, of the number, path, stage and number of parts of a row.
fn put_state(alloc: Global, row: &Row, out: &mut String) -> Result<(), Stop> {
    let number = number(row)?;
    let stage = stage(row.text(3)?)?;
    let upload = upload_of(alloc, row, number, stage)?;
    Ok(put_stand(alloc, &upload, out)?)
}

/// The answer to a row of this module.
pub fn answer(alloc: Global, line: &str, row: &Row, out: &mut String) -> Result<(), Stop> {
    match row.text(0)? {
        "upload" => Ok(put_upload(alloc, behind(line).as_bytes(), out)?),
        "upload-bytes" => Ok(put_upload(alloc, row.bytes(1)?, out)?),
        "numbers" => Ok(put_numbers(alloc, behind(line).as_bytes(), out)?),
        "numbers-bytes" => Ok(put_numbers(alloc, row.bytes(1)?, out)?),
        "listed" => put_listed(alloc, row, out),
        "state" => put_state(alloc, row, out),
        _ => Err(Stop::NoSuchRow),
    }
}
