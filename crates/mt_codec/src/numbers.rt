//! Numbers, and fields that begin with one, read from a cursor.
ghost use Rattle.std.specs.Prelude.{◌≡◌};
ghost use Rattle.std.specs.Int.{w16, w32, w64};
ghost use Rattle.mt_types.specs.Limits.{is_count, is_durability, is_index, is_moment, is_number};
ghost use Rattle.mt_codec.specs.Reading.{Gives, Shows, byte_at, bytes_at, named, number_at, optional, sized, tested};
ghost use Rattle.mt_codec.specs.Readers.{durability_at, flag_numbered, job_at, moment_at};

use crate::error::DecodeError;
use mt_bytes::Cursor;
use mt_types::{
    LARGEST_DURABILITY, LAST_MOMENT, LAST_PART, MOST_REDUCERS, NUMBERS_A_COMMAND, NUMBERS_END,
};

/// The next byte.
pub fn byte(cursor: &mut Cursor) -> Result<u8, DecodeError>
    ensures { Gives result cursor.new (byte_at cursor.old) }
{
    Ok(cursor.u8()?)
}

/// The number of the next two bytes.
pub fn two(cursor: &mut Cursor) -> Result<u16, DecodeError>
    ensures { Gives result cursor.new (number_at w16 cursor.old) }
{
    Ok(cursor.u16()?)
}

/// The number of the next four bytes.
pub fn four(cursor: &mut Cursor) -> Result<u32, DecodeError>
    ensures { Gives result cursor.new (number_at w32 cursor.old) }
{
    Ok(cursor.u32()?)
}

/// The number of the next eight bytes.
pub fn eight(cursor: &mut Cursor) -> Result<u64, DecodeError>
    ensures { Gives result cursor.new (number_at w64 cursor.old) }
{
    Ok(cursor.u64()?)
}

/// The next n bytes.
pub fn bytes<'a>(n: usize, cursor: &mut Cursor<'a>) -> Result<&'a [u8], DecodeError>
    ensures { Shows (λ piece. piece.now) result cursor.new (bytes_at n cursor.old) }
{
    Ok(cursor.bytes(n)?)
}

/// Bytes behind two bytes of length.
pub fn short_piece<'a>(cursor: &mut Cursor<'a>) -> Result<&'a [u8], DecodeError>
    ensures { Shows (λ piece. piece.now) result cursor.new (sized (number_at w16) cursor.old) }
{
    let n = two(cursor)?;
    bytes(n as usize, cursor)
}

/// Bytes behind four bytes of length.
pub fn long_piece<'a>(cursor: &mut Cursor<'a>) -> Result<&'a [u8], DecodeError>
    ensures { Shows (λ piece. piece.now) result cursor.new (sized (number_at w32) cursor.old) }
{
    let n = four(cursor)?;
    bytes(n as usize, cursor)
}

/// A moment, in seconds since 1970.
pub fn moment(cursor: &mut Cursor) -> Result<u64, DecodeError>
    ensures { Gives result cursor.new (moment_at cursor.old) }
{
    let n = eight(cursor)?;
    if n > LAST_MOMENT {
        return Err(DecodeError::NotACommand);
    }
    Ok(n)
}

/// The number of a job or of an upload.
pub fn job(cursor: &mut Cursor) -> Result<u64, DecodeError>
    ensures { Gives result cursor.new (job_at cursor.old) }
{
    let n = eight(cursor)?;
    if n % NUMBERS_A_COMMAND != 0 || n >= NUMBERS_END {
        return Err(DecodeError::NotACommand);
    }
    Ok(n)
}

/// The index of a part.
pub fn index(cursor: &mut Cursor) -> Result<u16, DecodeError>
    ensures { Gives result cursor.new (tested is_index (number_at w16) cursor.old) }
{
    let n = two(cursor)?;
    if n > LAST_PART {
        return Err(DecodeError::NotACommand);
    }
    Ok(n)
}

/// A number of reducers.
pub fn count(cursor: &mut Cursor) -> Result<u32, DecodeError>
    ensures { Gives result cursor.new (tested is_count (number_at w32) cursor.old) }
{
    let n = four(cursor)?;
    if n == 0 || n > MOST_REDUCERS {
        return Err(DecodeError::NotACommand);
    }
    Ok(n)
}

/// A flag.
pub fn flag(cursor: &mut Cursor) -> Result<bool, DecodeError>
    ensures { Gives result cursor.new (named flag_numbered byte_at cursor.old) }
{
    match byte(cursor)? {
        0 => Ok(false),
        1 => Ok(true),
        _ => Err(DecodeError::NotACommand),
    }
}

/// A reducer, where one is named.
pub fn reducer(cursor: &mut Cursor) -> Result<Option<u32>, DecodeError>
    ensures { Gives result cursor.new (optional (number_at w32) cursor.old) }
{
    match byte(cursor)? {
        0 => Ok(None),
        1 => Ok(Some(four(cursor)?)),
        _ => Err(DecodeError::NotACommand),
    }
}

/// A durability, where one was asked for.
pub fn durability(cursor: &mut Cursor) -> Result<Option<u8>, DecodeError>
    ensures { Gives result cursor.new (durability_at cursor.old) }
{
    match byte(cursor)? {
        0 => Ok(None),
        1 => Ok(Some(copies(cursor)?)),
        _ => Err(DecodeError::NotACommand),
    }
}

// A number of copies.
fn copies(cursor: &mut Cursor) -> Result<u8, DecodeError>
    ensures { Gives result cursor.new (tested is_durability byte_at cursor.old) }
{
    let n = byte(cursor)?;
    if n == 0 || n > LARGEST_DURABILITY {
        return Err(DecodeError::NotACommand);
    }
    Ok(n)
}
