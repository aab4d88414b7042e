//! Heads, read from a cursor, and the end of a file.
ghost use Rattle.std.specs.Prelude.{◌≡◌, ◌+◌, ◌≤◌, ◌||◌, ◌==◌, length, Option, Some, None, IfSome, if◌then◌else◌};
ghost use Rattle.std.specs.Int.{w16, w32};
ghost use Rattle.std.specs.Str.{is_utf8};
ghost use Rattle.mt_codec.specs.Reading.{byte_at, bytes_at, number_at, optional, sized};
ghost use Rattle.mt_records.specs.Heads.{Gives, Makes, Shows, emit_at, has_body, head_at, head_in_front, text_at, whole_head};
ghost use Rattle.mt_records.specs.Windows.{body_len, head_before, number_in};

use crate::error::RecordError;
use crate::head::RecordHead;
use crate::limits::{END_LEN, LONGEST_HEAD, LONGEST_TEXT};
use mt_base::Text;
use mt_bytes::Cursor;
use std::alloc::Global;
use std::str;

// The next byte.
fn byte(cursor: &mut Cursor) -> Result<u8, RecordError>
    ensures { Gives result cursor.new (byte_at cursor.old) }
{
    Ok(cursor.u8()?)
}

// The number of the next two bytes.
fn two(cursor: &mut Cursor) -> Result<u16, RecordError>
    ensures { Gives result cursor.new (number_at w16 cursor.old) }
{
    Ok(cursor.u16()?)
}

// The number of the next four bytes.
fn four(cursor: &mut Cursor) -> Result<u32, RecordError>
    ensures { Gives result cursor.new (number_at w32 cursor.old) }
{
    Ok(cursor.u32()?)
}

// The next n bytes.
fn bytes<'a>(n: usize, cursor: &mut Cursor<'a>) -> Result<&'a [u8], RecordError>
    ensures { Shows (λ piece. piece.now) result cursor.new (bytes_at n cursor.old) }
{
    Ok(cursor.bytes(n)?)
}

// Bytes behind two bytes of length.
fn piece<'a>(cursor: &mut Cursor<'a>) -> Result<&'a [u8], RecordError>
    ensures { Shows (λ piece. piece.now) result cursor.new (sized (number_at w16) cursor.old) }
{
    let n = two(cursor)?;
    bytes(n as usize, cursor)
}

// A copy of bytes that are UTF-8.
fn text_of(alloc: Global, piece: &[u8]) -> Result<Text, RecordError>
    ensures { Makes result (if is_utf8 piece.now then Some piece.now else None) }
{
    match str::from_utf8(piece) {
        Ok(text) => Ok(Text::from_str(alloc, text)?),
        Err(_) => Err(RecordError::Malformed),
    }
}

// A text of a head.
fn text(alloc: Global, cursor: &mut Cursor) -> Result<Text, RecordError>
    ensures { Gives result cursor.new (text_at cursor.old) }
{
    let piece = piece(cursor)?;
    if piece.len() > LONGEST_TEXT {
        return Err(RecordError::Malformed);
    }
    text_of(alloc, piece)
}

// A place, where one is named.
fn place(alloc: Global, cursor: &mut Cursor) -> Result<Option<Text>, RecordError>
    ensures { Gives result cursor.new (optional text_at cursor.old) }
{
    match byte(cursor)? {
        0 => Ok(None),
        1 => Ok(Some(text(alloc, cursor)?)),
        _ => Err(RecordError::Malformed),
    }
}

// A reducer, where one is named.
fn reducer(cursor: &mut Cursor) -> Result<Option<u32>, RecordError>
    ensures { Gives result cursor.new (optional (number_at w32) cursor.old) }
{
    match byte(cursor)? {
        0 => Ok(None),
        1 => Ok(Some(four(cursor)?)),
        _ => Err(RecordError::Malformed),
    }
}

// A new object that is an output.
fn emit(alloc: Global, cursor: &mut Cursor) -> Result<RecordHead, RecordError>
    ensures { Gives result cursor.new (emit_at cursor.old) }
{
    let place = place(alloc, cursor)?;
    let reducer = reducer(cursor)?;
    Ok(RecordHead::Emit { place, reducer })
}

// A head.
#[tactic(auto, unfolding(crate::specs::Heads::head_at))]
fn head(alloc: Global, cursor: &mut Cursor) -> Result<RecordHead, RecordError>
    ensures { Gives result cursor.new (head_at cursor.old) }
{
    match byte(cursor)? {
        1 => emit(alloc, cursor),
        2 => Ok(RecordHead::Keep {
            place: text(alloc, cursor)?,
        }),
        3 => Ok(RecordHead::Ref {
            name: text(alloc, cursor)?,
        }),
        _ => Err(RecordError::Malformed),
    }
}

// The head that bytes are, each of them.
#[tactic(auto, unfolding(crate::specs::Heads::whole_head))]
fn whole_head(alloc: Global, bytes: &[u8]) -> Result<RecordHead, RecordError>
    ensures { Makes result (whole_head bytes.now) }
{
    let mut cursor = Cursor::new(bytes);
    let head = head(alloc, &mut cursor)?;
    if cursor.at_end() {
        Ok(head)
    } else {
        Err(RecordError::Malformed)
    }
}

// The head that the first n bytes of a front are, or all of it where it is shorter. No head has more than 1,209.
#[tactic(auto, using(std::proofs::lemmas::List::take_min))]
fn head_in_front(alloc: Global, n: u64, front: &[u8]) -> Result<RecordHead, RecordError>
    ensures { Makes result (head_in_front n front.now) }
{
    if n > LONGEST_HEAD as u64 {
        return Err(RecordError::Malformed);
    }
    whole_head(alloc, &front[..(n as usize).min(front.len())])
}

// Whether bytes may stand behind a head.
fn may_have(head: &RecordHead, len: u64) -> bool
    ensures { result ≡ (has_body head.now || len == 0) }
{
    match head {
        RecordHead::Emit { .. } | RecordHead::Keep { .. } => true,
        RecordHead::Ref { .. } => len == 0,
    }
}

/// The head that stands before a body of `len` bytes that begins at `from`, by the front of the file.
#[tactic(auto, unfolding(crate::specs::Windows::head_before))]
pub(crate) fn head_before(
    alloc: Global,
    from: u64,
    len: u64,
    front: &[u8],
) -> Result<RecordHead, RecordError>
    ensures { Makes result (head_before from len front.now) }
{
    let head = head_in_front(alloc, from, front)?;
    if may_have(&head, len) {
        Ok(head)
    } else {
        Err(RecordError::Malformed)
    }
}

/// The length of the body that the end of a file of `len` bytes says. `None` exactly where the file is torn.
#[tactic(auto, unfolding(crate::specs::Windows::body_len))]
pub(crate) fn body_len(end: &[u8], len: u64) -> Option<u64>
    ensures value { result ≡ body_len end.now len }
    ensures room { IfSome result (λ n. n + 12 ≤ len) }
{
    if len <= END_LEN as u64 || end.len() != END_LEN || &end[..4] != b"MREC".as_slice() {
        return None;
    }
    let body = number_in(end);
    if body <= len - END_LEN as u64 {
        Some(body)
    } else {
        None
    }
}

// The number behind the mark.
fn number_in(end: &[u8]) -> u64
    requires { length end.now ≡ 12 }
    ensures { result ≡ number_in end.now }
{
    let mut number = [0u8; 8];
    number.copy_from_slice(&end[4..]);
    u64::from_be_bytes(number)
}
