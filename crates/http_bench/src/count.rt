//! What the messages of a source come to.
ghost use Rattle.std.specs.Prelude.{◌≡◌, ◌+◌, ◌<◌, [], length, vec_len, IfOk, IfSome};
ghost use Rattle.mt_http.specs.Framing.{body_of};
ghost use Rattle.http_bench.specs.Counting.{ComeTo, Drained, IsWholeBody};

use mt_edge::{ReadStep, Source};
use mt_http::{BodyStream, Ending, Head, MessageEnd, limit_of, read_head};
use std::alloc::{AllocError, Global};

/// A body is read in pieces of at most so many bytes.
const PIECE: usize = 65_536;

/// What messages come to.
#[derive(Clone, Copy, Debug, PartialEq, Eq)]
pub struct Counts {
    /// How many there are.
    pub messages: u64,
    /// How many fields they have together.
    pub fields: u64,
    /// How many bytes their bodies have together.
    pub bytes: u64,
}

/// Why there is no count.
#[derive(Clone, Copy, Debug, PartialEq, Eq)]
pub enum Stop {
    /// What stands there is no message.
    Bad,
    /// A body is above its limit.
    TooLarge,
    /// A count is above 2 ^ 64 - 1.
    TooMany,
    /// The source ended within a message.
    Cut,
    /// The source failed, and counted it.
    SourceFault,
    /// Out of memory.
    Memory,
}

// Why no message was read, where the source didn't end before it.
fn stop_of(end: MessageEnd) -> Stop {
    match end {
        MessageEnd::Bad => Stop::Bad,
        MessageEnd::TooLarge => Stop::TooLarge,
        MessageEnd::End | MessageEnd::Truncated => Stop::Cut,
        MessageEnd::SourceFault => Stop::SourceFault,
        MessageEnd::Memory => Stop::Memory,
    }
}

// Reads a source to its end, and says how many bytes it had.
fn drain<S: Source>(source: &mut S, piece: &mut [u8]) -> Result<u64, Stop>
    requires { 0 < length piece.old }
    ensures count { IfOk result (λ count. Drained (S.left source.old) count (S.left source.new)) }
    ensures end { IfOk result (λ count. IfSome (S.left source.new) (λ bytes. bytes ≡ [])) }
    ensures stays { S.source_stays source.old source.new }
{
    let mut count: u64 = 0;
    for _ in 0..u64::MAX {
        match source.read(piece) {
            ReadStep::Took(more) => match count.checked_add(more as u64) {
                Some(sum) => count = sum,
                None => return Err(Stop::TooMany),
            },
            ReadStep::End => return Ok(count),
            ReadStep::Failed => return Err(Stop::SourceFault),
        }
    }
    Err(Stop::TooMany)
}

// Reads the body of a head to its end, and says how many bytes it had.
fn drop_body<S: Source>(source: &mut S, head: &Head, piece: &mut [u8]) -> Result<u64, Stop>
    requires { 0 < length piece.old }
    ensures whole { IfOk result (λ size. IfSome (S.left source.old) (λ bytes.
        IsWholeBody (body_of head.now bytes) size (S.left source.new))) }
    ensures stays { S.source_stays source.old source.new }
{
    let mut body = BodyStream::new(source, head, limit_of(head));
    let size = drain(&mut body, piece)?;
    match body.ending() {
        Some(Ending::Whole) => Ok(size),
        Some(Ending::Bad) => Err(Stop::Bad),
        Some(Ending::TooLarge) => Err(Stop::TooLarge),
        Some(Ending::Truncated) | None => Err(Stop::Cut),
    }
}

// One more message.
fn with_message(counts: Counts, fields: usize, size: u64) -> Result<Counts, Stop>
    ensures { IfOk result (λ sum. sum ≡ record {
      messages = counts.messages + 1;
      fields = counts.fields + fields;
      bytes = counts.bytes + size;
    }) }
{
    match (
        counts.messages.checked_add(1),
        counts.fields.checked_add(fields as u64),
        counts.bytes.checked_add(size),
    ) {
        (Some(messages), Some(fields), Some(bytes)) => Ok(Counts {
            messages,
            fields,
            bytes,
        }),
        _ => Err(Stop::TooMany),
    }
}

fn zeros(alloc: Global, count: usize) -> Result<Vec<u8>, AllocError>
    ensures { IfOk result (λ v. vec_len v ≡ count) }
{
    vec![in alloc; 0; count]
}

/// Reads the messages of a source up to its end, and drops their bodies. It takes memory for one head and one piece
/// of 64 KiB.
pub fn count_messages<S: Source>(alloc: Global, source: &mut S) -> Result<Counts, Stop>
    ensures counts { IfOk result (λ counts. IfSome (S.left source.old) (λ bytes. ComeTo bytes counts)) }
    ensures stays { S.source_stays source.old source.new }
{
    let mut piece = match zeros(alloc, PIECE) {
        Ok(piece) => piece,
        Err(_) => return Err(Stop::Memory),
    };
    let mut counts = Counts {
        messages: 0,
        fields: 0,
        bytes: 0,
    };
    for _ in 0..u64::MAX {
        let head = match read_head(alloc, source) {
            Ok(head) => head,
            Err(MessageEnd::End) => return Ok(counts),
            Err(end) => return Err(stop_of(end)),
        };
        let size = drop_body(source, &head, &mut piece)?;
        counts = with_message(counts, head.fields.as_slice().len(), size)?;
    }
    Err(Stop::TooMany)
}
