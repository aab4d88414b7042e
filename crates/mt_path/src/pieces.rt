//! The pieces of names, between their slashes. They are taken from the name as it stands, no more than decide
//! what it names, and each takes memory only where the names so far leave it room.
ghost use Rattle.std.specs.Prelude.{◌≡◌, ◌≤◌, ◌<◌, ◌==◌, [], length, map, position, take, bytes_eq, codes, if◌then◌else◌, nat_eq, IfOk, IfErr, IfSome};
ghost use Rattle.std.specs.List.{before_first, starts_with};
ghost use Rattle.percent_encoding.specs.Percent.{percent_decode as decoded_bytes_of};
ghost use Rattle.mt_path.specs.AccountPath.{slashed};
ghost use Rattle.mt_path.specs.Names.{IsTooLong, begins_as_text, pieces, question_mark};

use crate::error::PathError;
use crate::limits::{LONGEST_PATH, MOST_PIECES};
use mt_base::Bytes;
use percent_encoding::percent_decode;
use std::alloc::{AllocError, Global};

/// The first pieces of a request target, as they stand: none where it begins with no slash. No more are
/// taken than [`MOST_PIECES`].
pub fn target_pieces(alloc: Global, raw: &[u8]) -> Result<Vec<&[u8]>, AllocError>
    ensures { IfOk result (λ v. map (λ x. x.now) v.items ≡ (if starts_with nat_eq raw.now (codes "/") then take MOST_PIECES (pieces (before_first (λ b. b == question_mark) raw.now)) else [])) }
{
    if raw.starts_with(b"/") {
        pieces(alloc, before_query(raw))
    } else {
        Ok(Vec::new(alloc))
    }
}

/// The first pieces of a name in a text, as they stand: none where it begins with neither a slash nor
/// `~~/`. No more are taken than [`MOST_PIECES`].
pub fn text_pieces(alloc: Global, text: &[u8]) -> Result<Vec<&[u8]>, AllocError>
    ensures { IfOk result (λ v. map (λ x. x.now) v.items ≡ (if begins_as_text text.now then take MOST_PIECES (pieces text.now) else [])) }
{
    if begins_as_text(text) {
        pieces(alloc, text)
    } else {
        Ok(Vec::new(alloc))
    }
}

/// Pieces without their escapes. `TooLong` where they, each with its slash, are longer than a path.
pub fn decoded_names(alloc: Global, pieces: &[&[u8]]) -> Result<Vec<Bytes>, PathError>
    ensures items { IfOk result (λ v. v.items ≡ map decoded_bytes_of (map (λ x. x.now) pieces.now)) }
    ensures short { IfOk result (λ v. length (slashed v.items) ≤ LONGEST_PATH) }
    ensures long { IfErr result (IsTooLong (map decoded_bytes_of (map (λ x. x.now) pieces.now))) }
{
    let mut out = Vec::new(alloc);
    let mut room = LONGEST_PATH;
    for piece in pieces {
        let len = decoded_len(piece);
        if len >= room {
            return Err(PathError::TooLong);
        }
        room -= len + 1;
        out.push(decoded(alloc, piece, len)?)?;
    }
    Ok(out)
}

/// Copies of pieces. `TooLong` where they, each with its slash, are longer than a path.
pub fn copied_names(alloc: Global, pieces: &[&[u8]]) -> Result<Vec<Bytes>, PathError>
    ensures items { IfOk result (λ v. v.items ≡ map (λ x. x.now) pieces.now) }
    ensures short { IfOk result (λ v. length (slashed v.items) ≤ LONGEST_PATH) }
    ensures long { IfErr result (IsTooLong (map (λ x. x.now) pieces.now)) }
{
    let mut out = Vec::new(alloc);
    let mut room = LONGEST_PATH;
    for piece in pieces {
        if piece.len() >= room {
            return Err(PathError::TooLong);
        }
        room -= piece.len() + 1;
        out.push(Bytes::from_slice(alloc, piece)?)?;
    }
    Ok(out)
}

/// Whether a piece without its escapes is this name. It takes no more memory than the name.
pub fn decodes_to(alloc: Global, piece: &[u8], name: &[u8]) -> Result<bool, AllocError>
    ensures { IfOk result (λ is. is ≡ bytes_eq (decoded_bytes_of piece.now) name.now) }
{
    let len = decoded_len(piece);
    if len != name.len() {
        return Ok(false);
    }
    let bytes = decoded(alloc, piece, len)?;
    Ok(bytes.as_slice() == name)
}

// Whether a text begins as a name does.
fn begins_as_text(text: &[u8]) -> bool
    ensures { result ≡ begins_as_text text.now }
{
    text.starts_with(b"/") || text.starts_with(b"~~/")
}

// The first pieces between slashes, without the empty ones.
fn pieces<'a>(alloc: Global, text: &'a [u8]) -> Result<Vec<&'a [u8]>, AllocError>
    ensures { IfOk result (λ v. map (λ x. x.now) v.items ≡ take MOST_PIECES (pieces text.now)) }
{
    text.split(|b| *b == b'/')
        .filter(|piece| !piece.is_empty())
        .take(MOST_PIECES)
        .collect(alloc)
}

// What stands before the first question mark.
fn before_query(raw: &[u8]) -> &[u8]
    ensures { result.now ≡ before_first (λ b. b == question_mark) raw.now }
{
    match query_at(raw) {
        Some(end) => &raw[..end],
        None => raw,
    }
}

/// The place of the first question mark of a request target, before which its path ends (RFC 9110, section 4.1); none where
/// it has no query.
pub fn query_at(raw: &[u8]) -> Option<usize>
    ensures place { result ≡ position (λ b. b == question_mark) raw.now }
    ensures within { IfSome result (λ place. place < length raw.now) }
{
    raw.iter().position(|b| *b == b'?')
}

// The number of bytes of a piece without its escapes.
fn decoded_len(piece: &[u8]) -> usize
    ensures { result ≡ length (decoded_bytes_of piece.now) }
{
    percent_decode(piece).count()
}

// A piece without its escapes, of which the length is known.
fn decoded(alloc: Global, piece: &[u8], len: usize) -> Result<Bytes, AllocError>
    ensures { IfOk result (λ v. v ≡ decoded_bytes_of piece.now) }
{
    let mut out = Vec::with_capacity(alloc, len)?;
    percent_decode(piece).append_to(&mut out)?;
    Ok(Bytes::from_vec(out))
}
