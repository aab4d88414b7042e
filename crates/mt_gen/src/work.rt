//! What the two commands of a drill's job give.
ghost use Rattle.std.specs.Prelude.{◌≡◌, ◌<◌, ◌^◌, ◌++◌, IfOk, None, OnOk, Some, length};
ghost use Rattle.std.specs.List.{All};
ghost use Rattle.mt_records.specs.Records.{record_bytes};
ghost use Rattle.mt_records.specs.declared.head.RecordHead.TheVariants.{Emit};
ghost use Rattle.mt_split.specs.Spans.{IsWithin, bytes_in};
ghost use Rattle.mt_spawn.specs.Orders.{input_from};
ghost use Rattle.mt_gen.specs.Work.{counted, line_count, raw_with, split_files};

use mt_base::{Bytes, Sequence};
use mt_bytes::{put_bytes, put_decimal};
use mt_records::{RecordHead, encode_head, end_of};
use mt_spawn::{Order, Work};
use mt_split::{KeyRule, Span, split};
use mt_types::{Made, Raw, RecordFile};
use std::alloc::{AllocError, Global};

/// The job of a drill has so many reducers.
const REDUCERS: u32 = 4;

/// A shell ends with it where a command isn't found.
const NOT_FOUND: u32 = 127;

/// The commands of a drill's job: `split` leaves a record file for each of four reducers, with the lines of the input whose digest is
/// theirs, as `msplit -n 4` does; `count` writes how many lines its input has, in decimal, and a line feed.
#[derive(Clone, Copy, Debug, PartialEq, Eq, Drop)]
pub struct DrillWork;

// Appends the bytes that spans of a text name.
fn put_spans(out: &mut Vec<u8>, text: &[u8], spans: &[Span]) -> Result<(), AllocError>
    requires { All (IsWithin text.now) spans.now }
    ensures { OnOk result (out.new.items ≡ out.old.items ++ bytes_in text.now spans.now) }
{
    for span in spans {
        let from = span.from as usize;
        out.extend_from_slice(&text[from..from + span.len as usize])?;
    }
    Ok(())
}

// The bytes of an output for a reducer, of these spans of a text, as a record.
fn part_bytes(
    alloc: Global,
    text: &[u8],
    spans: &[Span],
    reducer: u32,
) -> Result<Vec<u8>, AllocError>
    requires { All (IsWithin text.now) spans.now }
    ensures { IfOk result (λ bytes. bytes.items ≡ record_bytes (record { head = Emit None (Some reducer); body = bytes_in text.now spans.now })) }
{
    let head = RecordHead::Emit {
        place: None,
        reducer: Some(reducer),
    };
    let mut bytes = encode_head(alloc, &head)?;
    let head_len = bytes.len();
    put_spans(&mut bytes, text, spans)?;
    let len = bytes.len() - head_len;
    bytes.extend_from_slice(&end_of(len as u64))?;
    Ok(bytes)
}

// The lines of a text, in a record file for each reducer.
fn split_files(alloc: Global, text: &[u8]) -> Result<Vec<RecordFile>, AllocError>
    requires { length text.now < 2 ^ 32 }
    ensures { IfOk result (λ files. files.items ≡ split_files text.now) }
{
    let parts = split(alloc, text, REDUCERS, &KeyRule::Line)?;
    let mut files = Vec::with_capacity(alloc, REDUCERS as usize)?;
    for number in 0..REDUCERS {
        let bytes = part_bytes(alloc, text, parts.part(number), number)?;
        files.push(RecordFile {
            number,
            bytes: Bytes::from_vec(bytes),
        })?;
    }
    Ok(files)
}

// How many line feeds a text has.
fn line_count(text: &[u8]) -> usize
    ensures { result ≡ line_count text.now }
{
    let mut count = 0;
    for byte in text {
        if *byte == b'\n' {
            count += 1;
        }
    }
    count
}

// How many lines a text has, in decimal, and a line feed.
fn counted(alloc: Global, text: &[u8]) -> Result<Vec<u8>, AllocError>
    ensures { IfOk result (λ out. out.items ≡ counted text.now) }
{
    let count = line_count(text);
    let mut out = Vec::new(alloc);
    put_decimal(&mut out, count as u64)?;
    put_bytes(&mut out, b"\n")?;
    Ok(out)
}

// A child that ended with this status.
fn raw_with(
    alloc: Global,
    status: u32,
    out: Vec<u8>,
    files: Vec<RecordFile>,
) -> Result<Raw, AllocError>
    ensures { IfOk result (λ raw. raw ≡ raw_with status out.items files.items) }
{
    Ok(Raw {
        status,
        stderr: Bytes::from_slice(alloc, b"")?,
        made: Made::Whole {
            out: Bytes::from_vec(out),
            files: Sequence::from_vec(files),
        },
    })
}

// The input of an order in the bytes that came with it.
fn input_of<'a>(order: &Order, bytes: &'a [u8]) -> &'a [u8]
    ensures { result.now ≡ input_from order.now bytes.now }
{
    &bytes[..bytes.len().min(order.input as usize)]
}

impl Work for DrillWork {
    ghost use Rattle.mt_gen.specs.Work.{raw_of_drill};

    ghost raw_of = { λ w. raw_of_drill };

    // A text of 4 GiB or more, which no drill has, counts as want of memory.
    fn work(
        &self,
        alloc: Global,
        order: &Order,
        bytes: &[u8],
        _otherwise: bool,
    ) -> Result<Raw, AllocError> {
        let input = input_of(order, bytes);
        match order.exec.as_str() {
            "split" if input.len() > u32::MAX as usize => Err(AllocError),
            "split" => raw_with(alloc, 0, Vec::new(alloc), split_files(alloc, input)?),
            "count" => raw_with(alloc, 0, counted(alloc, input)?, Vec::new(alloc)),
            _ => raw_with(alloc, NOT_FOUND, Vec::new(alloc), Vec::new(alloc)),
        }
    }
}
