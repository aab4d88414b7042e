//! Rows of `mt_jobdoc`. The login is `l`.
use mt_jobdoc::{print, read};
use mt_rows::{Row, Stop, put_escaped};
use mt_types::{JobDocument, Path, Phase, PhaseKind, Text};
use std::alloc::{AllocError, Global};

/// Whose names the assets are.
const LOGIN: &str = "l";

// What stands behind the first word of a line, as it stands.
fn behind(line: &str) -> &str {
    match line.split_once(' ') {
        Some((_call, rest)) => rest,
        None => "",
    }
}

fn put_kind(kind: PhaseKind, out: &mut String) -> Result<(), AllocError> {
    match kind {
        PhaseKind::Map => out.push_str("; map "),
        PhaseKind::Reduce { count } => write!(out, "; reduce {count} "),
    }
}

fn put_init(init: &Option<Text>, out: &mut String) -> Result<(), AllocError> {
    match init {
        Some(init) => {
            out.push_str(", init ")?;
            put_escaped(out, init.as_bytes())
        }
        None => Ok(()),
    }
}

fn put_asset(alloc: Global, asset: &Path, out: &mut String) -> Result<(), AllocError> {
    out.push_str(", ")?;
    put_escaped(out, asset.print(alloc, LOGIN)?.as_bytes())
}

fn put_phase(alloc: Global, phase: &Phase, out: &mut String) -> Result<(), AllocError> {
    put_kind(phase.kind, out)?;
    put_escaped(out, phase.exec.as_bytes())?;
    put_init(&phase.init, out)?;
    for asset in phase.assets.as_slice() {
        put_asset(alloc, asset, out)?;
    }
    Ok(())
}

fn put_document(alloc: Global, document: &JobDocument, out: &mut String) -> Result<(), AllocError> {
    out.push_str("job ")?;
    put_escaped(out, document.name.as_bytes())?;
    for phase in document.phases.as_slice() {
        put_phase(alloc, phase, out)?;
    }
    Ok(())
}

// What bytes are read as.
fn put_what(alloc: Global, bytes: &[u8], out: &mut String) -> Result<(), AllocError> {
    match read(alloc, LOGIN, bytes) {
        Ok(document) => put_document(alloc, &document, out),
        Err(e) => write!(out, "{e:?}"),
    }
}

fn put_read(alloc: Global, bytes: &[u8], out: &mut String) -> Result<bool, Stop> {
    put_what(alloc, bytes, out)?;
    Ok(true)
}

fn put_phases(alloc: Global, document: &JobDocument, out: &mut String) -> Result<(), AllocError> {
    out.push_str(print(alloc, document, LOGIN)?.as_str())
}

// The phases of a document, as they are printed.
fn put_printed(alloc: Global, bytes: &[u8], out: &mut String) -> Result<bool, Stop> {
    let Ok(document) = read(alloc, LOGIN, bytes) else {
        return Err(Stop::NoSuchRow);
    };
    put_phases(alloc, &document, out)?;
    Ok(true)
}

// Appends brackets in brackets, so many of each.
fn put_brackets(text: &mut Vec<u8>, count: u64) -> Result<(), AllocError> {
    text.extend_from_slice(b"{\"phases\":[{\"exec\":\"x\",\"more\":")?;
    for _ in 0..count {
        text.push(b'[')?;
    }
    for _ in 0..count {
        text.push(b']')?;
    }
    text.extend_from_slice(b"}]}")
}

fn nested(alloc: Global, count: u64) -> Result<Vec<u8>, AllocError> {
    let mut text = Vec::new(alloc);
    put_brackets(&mut text, count)?;
    Ok(text)
}

fn put_nested(alloc: Global, row: &Row, out: &mut String) -> Result<bool, Stop> {
    let text = nested(alloc, row.number(1)?)?;
    put_read(alloc, &text, out)
}

/// The answer to a row of this crate, if it is one.
pub fn answer(alloc: Global, line: &str, row: &Row, out: &mut String) -> Result<bool, Stop> {
    match row.text(0)? {
        "document" => put_read(alloc, behind(line).as_bytes(), out),
        "document-bytes" => put_read(alloc, row.bytes(1)?, out),
        "nested" => put_nested(alloc, row, out),
        "print" => put_printed(alloc, behind(line).as_bytes(), out),
        _ => Ok(false),
    }
}
