//! Rows of `mt_records`. The login is `l`.
ghost use Rattle.std.specs.Prelude.{IfOk, IfSome, IsTrue};
ghost use Rattle.mt_records.specs.Heads.{IsShort, is_short};

use mt_base::{Bytes, Sequence, Text};
use mt_path::Path;
use mt_records::{
    END_LEN, Judging, LONGEST_HEAD, LONGEST_TEXT, Range, RawRecord, RecordError, RecordHead,
    decode, encode_head, end_of,
};
use mt_rows::{Row, Stop, put_escaped};
use mt_spawn::{FileSize, Left, Part, Sizes};
use mt_types::{Fate, TaskRecord};
use std::alloc::Global;

/// Whose task it is.
const LOGIN: &str = "l";

/// A row has fewer words.
const MOST_WORDS: usize = 1 << 32;

// A number that fits.
fn narrow(number: u64) -> Result<u32, Stop> {
    if number < 1 << 32 {
        Ok(number as u32)
    } else {
        Err(Stop::NoSuchRow)
    }
}

// A text that a head may have.
fn text(alloc: Global, row: &Row, place: usize) -> Result<Text, Stop>
    ensures { IfOk result (λ t. IsTrue (is_short t)) }
{
    let text = row.text(place)?;
    if text.len() > LONGEST_TEXT {
        return Err(Stop::NoSuchRow);
    }
    Ok(Text::from_str(alloc, text)?)
}

// A text, or none for a dash.
fn place(alloc: Global, row: &Row, word: usize) -> Result<Option<Text>, Stop>
    ensures { IfOk result (λ p. IfSome p (λ t. IsTrue (is_short t))) }
{
    if row.text(word)? == "-" {
        return Ok(None);
    }
    Ok(Some(text(alloc, row, word)?))
}

// A reducer, or none for a dash.
fn reducer(row: &Row, word: usize) -> Result<Option<u32>, Stop> {
    if row.text(word)? == "-" {
        return Ok(None);
    }
    Ok(Some(narrow(row.number(word)?)?))
}

// A head, by its words.
fn head(alloc: Global, row: &Row) -> Result<RecordHead, Stop>
    ensures { IfOk result IsShort }
{
    match row.text(1)? {
        "emit" => {
            let reducer = reducer(row, 3)?;
            let place = place(alloc, row, 2)?;
            Ok(RecordHead::Emit { place, reducer })
        }
        "keep" => Ok(RecordHead::Keep {
            place: text(alloc, row, 2)?,
        }),
        "ref" => Ok(RecordHead::Ref {
            name: text(alloc, row, 2)?,
        }),
        _ => Err(Stop::NoSuchRow),
    }
}

// The bytes of a head.
fn put_encoded(alloc: Global, row: &Row, out: &mut String) -> Result<(), Stop> {
    let head = head(alloc, row)?;
    let bytes = encode_head(alloc, &head)?;
    put_escaped(out, &bytes)?;
    Ok(())
}

// The end behind a body.
fn put_end(row: &Row, out: &mut String) -> Result<(), Stop> {
    put_escaped(out, &end_of(row.number(1)?))?;
    Ok(())
}

fn put_text(text: &Text, out: &mut String) -> Result<(), Stop> {
    out.push(' ')?;
    put_escaped(out, text.as_bytes())?;
    Ok(())
}

fn put_place(place: &Option<Text>, out: &mut String) -> Result<(), Stop> {
    match place {
        Some(text) => put_text(text, out),
        None => {
            out.push_str(" -")?;
            Ok(())
        }
    }
}

fn put_reducer(reducer: Option<u32>, out: &mut String) -> Result<(), Stop> {
    match reducer {
        Some(number) => write!(out, " {number}")?,
        None => out.push_str(" -")?,
    }
    Ok(())
}

fn put_head(head: &RecordHead, out: &mut String) -> Result<(), Stop> {
    match head {
        RecordHead::Emit { place, reducer } => {
            out.push_str("emit")?;
            put_place(place, out)?;
            put_reducer(*reducer, out)
        }
        RecordHead::Keep { place } => {
            out.push_str("keep")?;
            put_text(place, out)
        }
        RecordHead::Ref { name } => {
            out.push_str("ref")?;
            put_text(name, out)
        }
    }
}

fn put_raw(record: &RawRecord<Bytes>, out: &mut String) -> Result<(), Stop> {
    put_head(&record.head, out)?;
    out.push_str(" [")?;
    put_escaped(out, record.body.as_slice())?;
    out.push(']')?;
    Ok(())
}

// The record that a file is.
fn put_decoded(alloc: Global, row: &Row, out: &mut String) -> Result<(), Stop> {
    match decode(alloc, row.bytes(1)?) {
        Ok(record) => put_raw(&record, out),
        Err(e) => {
            write!(out, "{e:?}")?;
            Ok(())
        }
    }
}

// Whether bytes are a record (R), torn (T) or malformed (M).
fn verdict(alloc: Global, bytes: &[u8]) -> Result<char, Stop> {
    match decode(alloc, bytes) {
        Ok(_) => Ok('R'),
        Err(RecordError::Torn) => Ok('T'),
        Err(RecordError::Malformed) => Ok('M'),
        Err(RecordError::Memory) => Err(Stop::Memory),
    }
}

// The same of each front of a file, from none of it to all.
fn put_fronts(alloc: Global, row: &Row, out: &mut String) -> Result<(), Stop> {
    let bytes = row.bytes(1)?;
    for len in 0..bytes.len() + 1 {
        out.push(verdict(alloc, &bytes[..len])?)?;
    }
    Ok(())
}

// ---- fates

// Looks at a file, where one is wanted.
fn look(alloc: Global, judging: &mut Judging, bytes: &[u8]) -> Result<(), Stop> {
    if let Some(size) = judging.next() {
        let front = &bytes[..bytes.len().min(LONGEST_HEAD)];
        let end = &bytes[bytes.len().saturating_sub(END_LEN)..];
        judging.file(alloc, size, front, end)?;
    }
    Ok(())
}

// The number and the length of the file that two words name.
fn size_at(row: &Row, place: usize) -> Result<FileSize, Stop> {
    if place >= MOST_WORDS {
        return Err(Stop::NoSuchRow);
    }
    let len = row.bytes(place + 1)?.len() as u64;
    Ok(FileSize {
        number: narrow(row.number(place)?)?,
        len,
    })
}

// The files of a row.
fn sizes(alloc: Global, row: &Row) -> Result<Sequence<FileSize>, Stop> {
    let mut sizes = Sequence::new(alloc);
    for place in (4..row.len()).step_by(2) {
        sizes.push(size_at(row, place)?)?;
    }
    Ok(sizes)
}

// What is told of the task of a row.
fn left(alloc: Global, row: &Row) -> Result<Left, Stop> {
    let status = narrow(row.number(1)?)?;
    let out = row.number(3)?;
    let stderr = Bytes::from_slice(alloc, row.bytes(2)?)?;
    let files = sizes(alloc, row)?;
    Ok(Left {
        status,
        stderr,
        made: Sizes::Whole { out, files },
    })
}

// The fate of the task of a row.
fn fate(alloc: Global, row: &Row) -> Result<Fate<Range>, Stop> {
    let mut judging = Judging::new(alloc, LOGIN, left(alloc, row)?)?;
    for place in (5..row.len()).step_by(2) {
        look(alloc, &mut judging, row.bytes(place)?)?;
    }
    Ok(judging.fate(alloc)?)
}

// So many files of one length, numbered from 0.
fn numbered(alloc: Global, count: u32, len: u64) -> Result<Sequence<FileSize>, Stop> {
    let mut sizes = Sequence::new(alloc);
    for number in 0..count {
        sizes.push(FileSize { number, len })?;
    }
    Ok(sizes)
}

// The fate of a task that left so many copies of a file, and nothing else.
fn fate_of_copies(alloc: Global, count: u32, bytes: &[u8]) -> Result<Fate<Range>, Stop> {
    let files = numbered(alloc, count, bytes.len() as u64)?;
    let left = Left {
        status: 0,
        stderr: Bytes::from_slice(alloc, b"")?,
        made: Sizes::Whole { out: 0, files },
    };
    let mut judging = Judging::new(alloc, LOGIN, left)?;
    for _ in 0..count {
        look(alloc, &mut judging, bytes)?;
    }
    Ok(judging.fate(alloc)?)
}

fn put_path(alloc: Global, path: &Path, out: &mut String) -> Result<(), Stop> {
    out.push(' ')?;
    put_escaped(out, path.print(alloc, LOGIN)?.as_bytes())?;
    Ok(())
}

fn put_path_or_none(alloc: Global, path: &Option<Path>, out: &mut String) -> Result<(), Stop> {
    match path {
        Some(path) => put_path(alloc, path, out),
        None => {
            out.push_str(" -")?;
            Ok(())
        }
    }
}

fn put_range(range: &Range, out: &mut String) -> Result<(), Stop> {
    match range.part {
        Part::Out => out.push_str(" out")?,
        Part::File { index } => write!(out, " file{index}")?,
    }
    write!(out, "+{}+{}", range.from, range.len)?;
    Ok(())
}

fn put_record(alloc: Global, record: &TaskRecord<Range>, out: &mut String) -> Result<(), Stop> {
    match record {
        TaskRecord::Emit {
            place,
            reducer,
            body,
        } => {
            out.push_str("; emit")?;
            put_path_or_none(alloc, place, out)?;
            put_reducer(*reducer, out)?;
            put_range(body, out)
        }
        TaskRecord::Keep { place, body } => {
            out.push_str("; keep")?;
            put_path(alloc, place, out)?;
            put_range(body, out)
        }
        TaskRecord::Ref { name } => {
            out.push_str("; ref")?;
            put_path(alloc, name, out)
        }
    }
}

fn put_records(alloc: Global, records: &[TaskRecord<Range>], out: &mut String) -> Result<(), Stop> {
    write!(out, "Good {}", records.len())?;
    for record in records {
        put_record(alloc, record, out)?;
    }
    Ok(())
}

fn put_fate(alloc: Global, fate: &Fate<Range>, out: &mut String) -> Result<(), Stop> {
    match fate {
        Fate::Good(records) => put_records(alloc, records.as_slice(), out),
        Fate::Bad {
            failure,
            status,
            stderr,
        } => {
            write!(out, "{failure:?} {status} [")?;
            put_escaped(out, stderr.as_slice())?;
            out.push(']')?;
            Ok(())
        }
    }
}

// How a task ends, and how many records it has.
fn put_count(fate: &Fate<Range>, out: &mut String) -> Result<(), Stop> {
    match fate {
        Fate::Good(records) => write!(out, "Good {}", records.len())?,
        Fate::Bad { failure, .. } => write!(out, "{failure:?}")?,
    }
    Ok(())
}

fn put_fate_of(alloc: Global, row: &Row, out: &mut String) -> Result<(), Stop> {
    let fate = fate(alloc, row)?;
    put_fate(alloc, &fate, out)
}

fn put_copies(alloc: Global, row: &Row, out: &mut String) -> Result<(), Stop> {
    let count = narrow(row.number(1)?)?;
    let fate = fate_of_copies(alloc, count, row.bytes(2)?)?;
    put_count(&fate, out)
}

/// The answer to a row of this crate.
pub fn answer(alloc: Global, row: &Row, out: &mut String) -> Result<(), Stop> {
    match row.text(0)? {
        "encode" => put_encoded(alloc, row, out),
        "end-bytes" => put_end(row, out),
        "decode" => put_decoded(alloc, row, out),
        "fronts" => put_fronts(alloc, row, out),
        "fate" => put_fate_of(alloc, row, out),
        "copies" => put_copies(alloc, row, out),
        _ => Err(Stop::NoSuchRow),
    }
}
