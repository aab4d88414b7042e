//! The head of a message, read by parts of lines: no byte after it is taken.
ghost use Rattle.std.specs.Prelude.{◌≡◌, ◌≢◌, ◌↔◌, ◌<◌, ◌+◌, ℕ, IsTrue, get_or, length};
ghost use Rattle.httparse.specs.Grammar.{LineEnd, print_end};
ghost use Rattle.mt_http.specs.Framing.{EndsWithEmptyLine};
ghost use Rattle.mt_http.specs.Reading.{EndsAfter, IsHeadFront, ReadsHead, TakesByte, TakesPiece};

use mt_edge::{ReadStep, Source};
use std::alloc::Global;

/// The empty lines before a head and the head have no more bytes than this together.
const HEAD_LIMIT: usize = 65_536;

/// The room that is made at first for a head, in bytes.
const FIRST_ROOM: usize = 1_024;

/// Lines are read by pieces of at most so many bytes, each within a line.
pub(crate) const PIECE: usize = 256;

/// How far a head has come.
#[derive(Clone, Copy)]
pub(crate) enum Taken {
    /// It goes on.
    More,
    /// It is whole.
    Whole,
    Memory,
}

fn is_empty_line(bytes: &[u8]) -> bool
    ensures { IsTrue result ↔ ((line : LineEnd) × (bytes.now ≡ print_end line)) }
{
    match bytes {
        [b'\n'] | [b'\r', b'\n'] => true,
        _ => false,
    }
}

fn ends_with_empty_line(bytes: &[u8]) -> bool
    ensures { IsTrue result ↔ EndsWithEmptyLine bytes.now }
{
    bytes.ends_with(b"\n\n") || bytes.ends_with(b"\n\r\n")
}

// One more byte of a head. An empty line before it is dropped.
fn take_byte(head: &mut Vec<u8>, byte: u8) -> Taken
    requires { IsHeadFront head.old.items }
    ensures { TakesByte head.old.items byte result head.new.items }
{
    if head.push(byte).is_err() {
        return Taken::Memory;
    }
    if byte != b'\n' {
        return Taken::More;
    }
    if is_empty_line(head.as_slice()) {
        head.clear();
        return Taken::More;
    }
    if ends_with_empty_line(head.as_slice()) {
        Taken::Whole
    } else {
        Taken::More
    }
}

// A piece of one line of a head, of which no byte but the last is an LF.
fn take_piece(head: &mut Vec<u8>, piece: &[u8]) -> Taken
    requires front { IsHeadFront head.old.items }
    requires some { 0 < length piece.now }
    requires line { (k : ℕ) → k + 1 < length piece.now → get_or piece.now k 0 ≢ 10 }
    ensures { TakesPiece head.old.items piece.now result head.new.items }
{
    let last = piece.len() - 1;
    match head.extend_from_slice(&piece[..last]) {
        Ok(()) => take_byte(head, piece[last]),
        Err(_) => Taken::Memory,
    }
}

/// What became of a head.
#[derive(Drop)]
pub enum HeadRead {
    /// A head, with the empty line that ends it. The source stands behind it.
    Whole(Vec<u8>),
    /// The source ended before a head began.
    End,
    /// The source ended within a head.
    Truncated,
    /// No head ends within the limit.
    TooLong,
    /// The source failed.
    SourceFault,
    /// Out of memory.
    Memory,
}

// The source ended after these bytes of a head.
fn ended(head: &[u8]) -> HeadRead
    ensures { EndsAfter head.now result }
{
    match head {
        [] | [b'\r'] => HeadRead::End,
        _ => HeadRead::Truncated,
    }
}

/// Reads the head at the front of a source, and the empty lines before it. A head takes 1,024 bytes of memory, and more
/// in proportion to its length.
pub fn find_head<S: Source>(alloc: Global, source: &mut S) -> HeadRead
    ensures stays { S.source_stays source.old source.new }
    ensures read { ReadsHead (S.left source.old) (S.read_faults source.old)
        result (S.left source.new) (S.read_faults source.new) }
{
    let mut head = match Vec::with_capacity(alloc, FIRST_ROOM) {
        Ok(head) => head,
        Err(_) => return HeadRead::Memory,
    };
    let mut piece = [0; PIECE];
    let mut taken = 0;
    'pieces: while taken < HEAD_LIMIT {
        let room = PIECE.min(HEAD_LIMIT - taken);
        let into = &mut piece[..room];
        match source.read_line(into) {
            ReadStep::Took(count) => match take_piece(&mut head, &into[..count]) {
                Taken::More => taken += count,
                Taken::Whole => return HeadRead::Whole(head),
                Taken::Memory => return HeadRead::Memory,
            },
            ReadStep::End => return ended(head.as_slice()),
            ReadStep::Failed => return HeadRead::SourceFault,
        }
    }
    match source.read(&mut piece[..1]) {
        ReadStep::Took(_) => HeadRead::TooLong,
        ReadStep::End => ended(head.as_slice()),
        ReadStep::Failed => HeadRead::SourceFault,
    }
}
