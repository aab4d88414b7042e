//! Reads and writes, each through its trait.
use mt_edge::{Both, ReadStep, Sink, Source, write_all};
use mt_rows::{Row, Stop, put_escaped};
use std::alloc::{AllocError, Global};

/// The most bytes that a row reads.
const MOST_READ: u64 = 4096;

/// How often an echo reads at most, and how many bytes.
const ECHOES: u32 = 9;

const ECHOED: usize = 3;

/// Appends bytes as a table shows them, and `\e` for none.
pub fn put_bytes(out: &mut String, bytes: &[u8]) -> Result<(), AllocError> {
    if bytes.is_empty() {
        return out.push_str("\\e");
    }
    put_escaped(out, bytes)
}

/// Answers a row that reads; `false` for another row.
pub fn answer_source<S: Source>(
    alloc: Global,
    source: &mut S,
    row: &Row,
    out: &mut String,
) -> Result<bool, Stop> {
    let in_lines = match row.call() {
        b"read" => false,
        b"read-line" => true,
        _ => return Ok(false),
    };
    let len = row.number(1)?;
    if len == 0 || len > MOST_READ {
        return Err(Stop::NoSuchRow);
    }
    let mut into = Vec::new(alloc);
    into.resize(len as usize, 0)?;
    let step = if in_lines {
        source.read_line(&mut into)
    } else {
        source.read(&mut into)
    };
    write!(out, "{step:?} ")?;
    put_bytes(out, &into)?;
    Ok(true)
}

/// Answers a row that writes; `false` for another row.
pub fn answer_sink<K: Sink>(sink: &mut K, row: &Row, out: &mut String) -> Result<bool, Stop> {
    match row.call() {
        b"write" => {
            let piece = row.bytes(1)?;
            if piece.is_empty() {
                return Err(Stop::NoSuchRow);
            }
            write!(out, "{:?}", sink.write(piece))?;
        }
        b"write-all" => write!(out, "{:?}", write_all(sink, row.bytes(1)?))?,
        _ => return Ok(false),
    }
    Ok(true)
}

/// Answers a row that reads from a link or writes to it; `false` for another row.
pub fn answer_link<L: Source + Sink + Both>(
    alloc: Global,
    link: &mut L,
    row: &Row,
    out: &mut String,
) -> Result<bool, Stop> {
    if let b"echo" = row.call() {
        put_echo(link, out)?;
        return Ok(true);
    }
    Ok(answer_source(alloc, link, row, out)? || answer_sink(link, row, out)?)
}

/// Writes back what is read, three bytes at a time, until the end or a write that fails. Prints what each call did.
pub fn put_echo<L: Source + Sink + Both>(link: &mut L, out: &mut String) -> Result<(), AllocError> {
    for _ in 0..ECHOES {
        let mut into = [0; ECHOED];
        let step = link.read(&mut into);
        write!(out, "{step:?}")?;
        match step {
            ReadStep::Took(count) => {
                let done = write_all(link, &into[..count]);
                write!(out, " {done:?}")?;
                if done.is_err() {
                    return Ok(());
                }
            }
            ReadStep::End => return Ok(()),
            ReadStep::Failed => {}
        }
        out.push_str(", ")?;
    }
    Ok(())
}
