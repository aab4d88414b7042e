//! Texts, paths and bodies, read from a cursor.
ghost use Rattle.std.specs.Prelude.{◌≡◌, ◌≤◌, ◌∷◌, ◌++◌, Option, Some, None, IsUtf8, IfOk, OnOk, if◌then◌else◌};
ghost use Rattle.std.specs.Int.{w16, w32, w64};
ghost use Rattle.std.specs.Str.{is_utf8};
ghost use Rattle.mt_types.specs.Limits.{is_command_line, is_job_name, is_line_text, is_metadata_name, is_plain_text};
ghost use Rattle.mt_codec.specs.Reading.{Gives, Makes, Shows, byte_at, named, number_at, sized, tested, times};
ghost use Rattle.mt_path.specs.Keys.{IsKey, parts_of};
ghost use Rattle.mt_codec.specs.Readers.{area_numbered, is_few_parts, is_short, path_of, body_at, command_line_at, component_at, content_type_at, field_at, metadata_at, path_at, texts};

use crate::error::DecodeError;
use crate::numbers::{byte, eight, long_piece, short_piece, two};
use crate::spelled::{Spelled, times};
use crate::writing::{put_field, put_path};
use mt_bytes::Cursor;
use mt_path::{Area, LONGEST_PATH, is_component};
use mt_types::{
    Body, Bytes, Field, Fields, LARGEST_METADATA, MOST_METADATA, Path, Text, are_by_name,
    is_command_line, is_content_type, is_job_name, is_line_text, is_metadata_name,
    is_metadata_within, is_plain_text,
};
use std::alloc::{AllocError, Global};
use std::str;

/// A path has no more components than this: each has a byte and a slash.
const MOST_PARTS: usize = LONGEST_PATH / 2;

// A copy of bytes that are UTF-8.
fn text_of(alloc: Global, piece: &[u8]) -> Result<Text, DecodeError>
    ensures { Makes result (if is_utf8 piece.now then Some piece.now else None) }
{
    match str::from_utf8(piece) {
        Ok(text) => Ok(Text::from_str(alloc, text)?),
        Err(_) => Err(DecodeError::NotACommand),
    }
}

// A copy of bytes that are known to be UTF-8.
fn known_text(alloc: Global, piece: &[u8]) -> Result<Text, AllocError>
    requires { IsUtf8 piece.now }
    ensures { IfOk result (λ t. t ≡ piece.now) }
{
    match str::from_utf8(piece) {
        Ok(text) => Text::from_str(alloc, text),
        Err(_) => unreachable!(),
    }
}

/// A content type.
pub fn content_type(alloc: Global, cursor: &mut Cursor) -> Result<Text, DecodeError>
    ensures { Gives result cursor.new (content_type_at cursor.old) }
{
    let piece = short_piece(cursor)?;
    if !is_content_type(piece) {
        return Err(DecodeError::NotACommand);
    }
    Ok(known_text(alloc, piece)?)
}

// The name of a piece of metadata.
fn metadata_name(alloc: Global, cursor: &mut Cursor) -> Result<Text, DecodeError>
    ensures { Gives result cursor.new (tested is_metadata_name (sized (number_at w16)) cursor.old) }
{
    let piece = short_piece(cursor)?;
    if !is_metadata_name(piece) {
        return Err(DecodeError::NotACommand);
    }
    Ok(known_text(alloc, piece)?)
}

// The value of a piece of metadata.
fn metadata_value(alloc: Global, cursor: &mut Cursor) -> Result<Bytes, DecodeError>
    ensures { Gives result cursor.new (tested is_plain_text (sized (number_at w16)) cursor.old) }
{
    let piece = short_piece(cursor)?;
    if !is_plain_text(piece) {
        return Err(DecodeError::NotACommand);
    }
    Ok(Bytes::from_slice(alloc, piece)?)
}

/// The name of a job.
pub fn job_name(alloc: Global, cursor: &mut Cursor) -> Result<Text, DecodeError>
    ensures { Gives result cursor.new (texts is_job_name (sized (number_at w32)) cursor.old) }
{
    let piece = long_piece(cursor)?;
    if !is_job_name(piece) {
        return Err(DecodeError::NotACommand);
    }
    text_of(alloc, piece)
}

/// A command line.
pub fn command_line(alloc: Global, cursor: &mut Cursor) -> Result<Text, DecodeError>
    ensures { Gives result cursor.new (command_line_at cursor.old) }
{
    let piece = long_piece(cursor)?;
    if !is_command_line(piece) {
        return Err(DecodeError::NotACommand);
    }
    text_of(alloc, piece)
}

/// A posted line that is no path.
pub fn line_text(alloc: Global, cursor: &mut Cursor) -> Result<Text, DecodeError>
    ensures { Gives result cursor.new (texts is_line_text (sized (number_at w32)) cursor.old) }
{
    let piece = long_piece(cursor)?;
    if !is_line_text(piece) {
        return Err(DecodeError::NotACommand);
    }
    text_of(alloc, piece)
}

// A component of a path.
fn component<'a>(cursor: &mut Cursor<'a>) -> Result<&'a [u8], DecodeError>
    ensures { Shows (λ name. name.now) result cursor.new (component_at cursor.old) }
{
    let piece = short_piece(cursor)?;
    if !is_component(piece) {
        return Err(DecodeError::NotACommand);
    }
    Ok(piece)
}

// An area.
fn area(cursor: &mut Cursor) -> Result<Area, DecodeError>
    ensures { Gives result cursor.new (named area_numbered byte_at cursor.old) }
{
    match byte(cursor)? {
        0 => Ok(Area::Stor),
        1 => Ok(Area::Public),
        2 => Ok(Area::Jobs),
        _ => Err(DecodeError::NotACommand),
    }
}

// The number of components. Where it says more than a path may have, none is read.
fn part_count(cursor: &mut Cursor) -> Result<usize, DecodeError>
    ensures { Gives result cursor.new (tested is_few_parts (number_at w16) cursor.old) }
{
    let n = two(cursor)? as usize;
    if n > MOST_PARTS {
        return Err(DecodeError::NotACommand);
    }
    Ok(n)
}

// The components of a path, so many, as a key, whose room is taken at once.
fn key_of(alloc: Global, n: usize, cursor: &mut Cursor) -> Result<Vec<u8>, DecodeError>
    ensures parts { Shows (λ key. parts_of key.items) result cursor.new (times component_at n cursor.old) }
    ensures key { IfOk result (λ key. IsKey key.items) }
{
    let mut key = Vec::with_capacity(alloc, room_of(n, cursor.left()))?;
    for _ in 0..n {
        put_part(&mut key, component(cursor)?)?;
    }
    Ok(key)
}

// The length of the key of the components at the front of bytes, so many. Where they are not whole, or too
// long for a path, it is that of those before.
fn room_of(n: usize, bytes: &[u8]) -> usize
    ensures { result ≤ LONGEST_PATH }
{
    let mut ahead = Cursor::new(bytes);
    let mut room = 0;
    for _ in 0..n {
        let len = match short_piece(&mut ahead) {
            Ok(piece) => piece.len(),
            Err(_) => return room,
        };
        if len >= LONGEST_PATH - room {
            return room;
        }
        room += len + 1;
    }
    room
}

// Adds a component at the end of a key.
fn put_part(key: &mut Vec<u8>, name: &[u8]) -> Result<(), AllocError>
    ensures { OnOk result (key.new.items ≡ key.old.items ++ 0 ∷ name.now) }
{
    key.push(0)?;
    key.extend_from_slice(name)
}

/// A path.
#[tactic(auto, unfolding(crate::specs::Readers::path_at))]
pub fn path(alloc: Global, cursor: &mut Cursor) -> Result<Path, DecodeError>
    ensures { Gives result cursor.new (path_at cursor.old) }
{
    let area = area(cursor)?;
    let n = part_count(cursor)?;
    let key = key_of(alloc, n, cursor)?;
    if !is_short(area, &key) {
        return Err(DecodeError::NotACommand);
    }
    Ok(Path::from_key(area, key))
}

// Whether a path has no more bytes than one may have.
fn is_short(area: Area, key: &[u8]) -> bool
    requires { IsKey key.now }
    ensures { result ≡ is_short (path_of (area, parts_of key.now)) }
{
    area.name().len() + 1 + key.len() <= LONGEST_PATH
}

impl Spelled for Path {
    ghost use Rattle.std.specs.Prelude.{false};
    ghost use Rattle.mt_codec.specs.Fields.{path_spelling};
    ghost use Rattle.mt_codec.specs.Spelling.{FitsPath};
    ghost use Rattle.mt_codec.specs.Readers.{path_at};

    ghost read_at = { path_at };

    ghost spelling = { path_spelling };

    ghost fits = { FitsPath false };

    fn read(alloc: Global, cursor: &mut Cursor) -> Result<Path, DecodeError> {
        path(alloc, cursor)
    }

    fn write(&self, out: &mut Vec<u8>) -> Result<(), AllocError> {
        put_path(out, self)
    }
}

/// The place and the length of a body.
#[tactic(auto, unfolding(crate::specs::Readers::body_at))]
pub fn body(cursor: &mut Cursor) -> Result<Body, DecodeError>
    ensures { Gives result cursor.new (body_at cursor.old) }
{
    let first = eight(cursor)?;
    let len = eight(cursor)?;
    if len == 0 && first != 0 {
        return Err(DecodeError::NotACommand);
    }
    Ok(Body {
        first,
        len,
        md5: [0; 16],
    })
}

// A piece of metadata.
#[tactic(auto, unfolding(crate::specs::Readers::field_at))]
fn field(alloc: Global, cursor: &mut Cursor) -> Result<Field, DecodeError>
    ensures { Gives result cursor.new (field_at cursor.old) }
{
    let name = metadata_name(alloc, cursor)?;
    let value = metadata_value(alloc, cursor)?;
    Ok(Field { name, value })
}

impl Spelled for Field {
    ghost use Rattle.std.specs.Prelude.{length, ◌<◌, ◌^◌};
    ghost use Rattle.mt_codec.specs.Spelling.{field_spelling};
    ghost use Rattle.mt_codec.specs.Readers.{field_at};

    ghost read_at = { field_at };

    ghost spelling = { field_spelling };

    ghost fits = { λ f. (length f.name < 2 ^ 16) × (length f.value < 2 ^ 16) };

    fn read(alloc: Global, cursor: &mut Cursor) -> Result<Field, DecodeError> {
        field(alloc, cursor)
    }

    fn write(&self, out: &mut Vec<u8>) -> Result<(), AllocError> {
        put_field(out, self)
    }
}

/// The metadata of an object.
#[tactic(auto, unfolding(crate::specs::Readers::metadata_at))]
pub fn metadata(alloc: Global, cursor: &mut Cursor) -> Result<Fields, DecodeError>
    ensures { Gives result cursor.new (metadata_at cursor.old) }
{
    let n = byte(cursor)? as usize;
    if n > MOST_METADATA {
        return Err(DecodeError::NotACommand);
    }
    let fields: Fields = times(alloc, n, cursor)?;
    if !is_metadata_within(fields.as_slice(), LARGEST_METADATA) || !are_by_name(fields.as_slice()) {
        return Err(DecodeError::NotACommand);
    }
    Ok(fields)
}
