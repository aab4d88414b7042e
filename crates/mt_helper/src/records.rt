//! Records that are made one by one: those of mcat, and those of msplit once its input is read.
ghost use Rattle.std.specs.Prelude.{◌≡◌, ◌<◌, ◌++◌, ◌∷◌, [], ℕ, length, map, IfOk, IfSome, IsTrue, OnOk, slice_index_or};
ghost use Rattle.std.specs.List.{All, AllByRecursion, range_with_len};
ghost use Rattle.mt_records.specs.Heads.{is_short};
ghost use Rattle.mt_base.specs.Counts.{NeverFell, Rose};
ghost use Rattle.mt_records.specs.Records.{record_bytes};
ghost use Rattle.mt_split.specs.Spans.{IsWithin, bytes_in};
ghost use Rattle.mt_helper.specs.Helping.{IsMakingEnd, Made, part_record, ref_of};
ghost use Rattle.mt_helper.specs.Spooling.{AreTakenBelow, Puts};
ghost use Rattle.mt_helper.specs.Streaming.{put_by};

use crate::spooling::{put_file, status_of};
use crate::status::Status;
use mt_base::{Duplicate, Text};
use mt_records::{RecordHead, encode_head, end_of};
use mt_spawn::Spool;
use mt_split::{Parts, Span};
use std::alloc::{AllocError, Global};

// The bytes of a reference to an object.
fn ref_bytes(alloc: Global, name: &Text) -> Result<Vec<u8>, AllocError>
    requires { IsTrue (is_short name.now) }
    ensures { IfOk result (λ bytes. bytes.items ≡ record_bytes (ref_of name.now)) }
{
    let name = name.copy(alloc)?;
    let mut bytes = encode_head(alloc, &RecordHead::Ref { name })?;
    bytes.extend_from_slice(&end_of(0))?;
    Ok(bytes)
}

// Appends the bytes that spans of a text name.
fn put_spans(out: &mut Vec<u8>, text: &[u8], spans: &[Span]) -> Result<(), AllocError>
    requires { All (IsWithin text.now) spans.now }
    ensures { OnOk result (out.new.items ≡ out.old.items ++ bytes_in text.now spans.now) }
{
    for span in spans {
        let from = span.from as usize;
        out.extend_from_slice(&text[from..from + span.len as usize])?;
    }
    Ok(())
}

// The bytes of an output for a reducer, of these spans of a text.
fn part_bytes(
    alloc: Global,
    text: &[u8],
    spans: &[Span],
    reducer: u32,
) -> Result<Vec<u8>, AllocError>
    requires { All (IsWithin text.now) spans.now }
    ensures { IfOk result (λ bytes. bytes.items ≡ record_bytes (part_record reducer (bytes_in text.now spans.now))) }
{
    let head = RecordHead::Emit {
        place: None,
        reducer: Some(reducer),
    };
    let mut bytes = encode_head(alloc, &head)?;
    let head_len = bytes.len();
    put_spans(&mut bytes, text, spans)?;
    let len = bytes.len() - head_len;
    bytes.extend_from_slice(&end_of(len as u64))?;
    Ok(bytes)
}

// Makes a file of the bytes of a record, of which there are some. The numbers below `next` are taken, and are so behind it.
fn put<P: Spool>(spool: &mut P, next: &mut u32, bytes: &[u8]) -> Status
    requires some { 0 < length bytes.now }
    requires taken { IfSome (P.files spool.old) (AreTakenBelow next.old) }
    ensures taken { result ≡ Status.Done → IfSome (P.files spool.new) (AreTakenBelow next.new) }
    ensures puts { Puts (P.files spool.old) bytes.now (put_by result) (P.files spool.new) }
    ensures ends { IsMakingEnd result }
    ensures later { NeverFell (P.faults spool.old) (P.faults spool.new) }
    ensures fault { result ≡ Status.SpoolFault → Rose (P.faults spool.old) (P.faults spool.new) }
{
    match put_file(spool, *next, bytes) {
        Ok(number) => {
            *next = number.saturating_add(1);
            Status::Done
        }
        Err(halt) => status_of(halt),
    }
}

// Makes the record of a name.
fn put_ref<P: Spool>(alloc: Global, spool: &mut P, next: &mut u32, name: &Text) -> Status
    requires short { IsTrue (is_short name.now) }
    requires taken { IfSome (P.files spool.old) (AreTakenBelow next.old) }
    ensures taken { result ≡ Status.Done → IfSome (P.files spool.new) (AreTakenBelow next.new) }
    ensures made { Made (record_bytes (ref_of name.now) ∷ []) result (P.files spool.old) (P.faults spool.old) (P.files spool.new) (P.faults spool.new) }
{
    match ref_bytes(alloc, name) {
        Ok(bytes) => put(spool, next, &bytes),
        Err(_) => Status::OutOfMemory,
    }
}

/// Makes the records of names, in their order.
pub(crate) fn put_refs<P: Spool>(alloc: Global, spool: &mut P, names: &[Text]) -> Status
    requires { AllByRecursion (λ name. IsTrue (is_short name)) names.now }
    ensures { Made (map record_bytes (map ref_of names.now)) result (P.files spool.old) (P.faults spool.old) (P.files spool.new) (P.faults spool.new) }
{
    let mut next = 0;
    for name in names {
        match put_ref(alloc, spool, &mut next, name) {
            Status::Done => {}
            status => return status,
        }
    }
    Status::Done
}

// Makes the record of a reducer.
fn put_part<P: Spool>(
    alloc: Global,
    spool: &mut P,
    next: &mut u32,
    text: &[u8],
    spans: &[Span],
    reducer: u32,
) -> Status
    requires within { All (IsWithin text.now) spans.now }
    requires taken { IfSome (P.files spool.old) (AreTakenBelow next.old) }
    ensures taken { result ≡ Status.Done → IfSome (P.files spool.new) (AreTakenBelow next.new) }
    ensures made { Made (record_bytes (part_record reducer (bytes_in text.now spans.now)) ∷ []) result (P.files spool.old) (P.faults spool.old) (P.files spool.new) (P.faults spool.new) }
{
    match part_bytes(alloc, text, spans, reducer) {
        Ok(bytes) => put(spool, next, &bytes),
        Err(_) => Status::OutOfMemory,
    }
}

/// Makes the records of reducers, one for each of so many, by their lines of a text.
pub(crate) fn put_parts<P: Spool>(
    alloc: Global,
    spool: &mut P,
    text: &[u8],
    parts: &Parts,
    count: u32,
) -> Status
    requires count { length parts.now ≡ count }
    requires within { (r : ℕ) → All (IsWithin text.now) (slice_index_or parts.now r []) }
    ensures { Made (map record_bytes (map (λ r. part_record r (bytes_in text.now (slice_index_or parts.now r []))) (range_with_len 0 count))) result (P.files spool.old) (P.faults spool.old) (P.files spool.new) (P.faults spool.new) }
{
    let mut next = 0;
    for reducer in 0..count {
        match put_part(alloc, spool, &mut next, text, parts.part(reducer), reducer) {
            Status::Done => {}
            status => return status,
        }
    }
    Status::Done
}
