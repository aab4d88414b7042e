//! Fields, appended to a vector. On an error, which is want of memory, what the vector holds is not said.
ghost use Rattle.std.specs.Prelude.{◌≡◌, ◌<◌, ◌^◌, ◌++◌, false, length, IfSome, IsTrue, OnOk};
ghost use Rattle.std.specs.List.{AllByRecursion, flat_map};
ghost use Rattle.mt_path.specs.AccountPath.{IsComponent};
ghost use Rattle.mt_path.specs.Keys.{IsKey, parts_of};
ghost use Rattle.mt_base.specs.Numbers.{big_endian_16, big_endian_32, big_endian_64};
ghost use Rattle.mt_types.specs.Limits.{is_command_line, is_content_type, is_durability};
ghost use Rattle.mt_codec.specs.Fields.{body_spelling, long_text_spelling, optional_spelling, path_spelling, text_spelling};
ghost use Rattle.mt_codec.specs.Spelling.{FitsCommandLine, byte_spelling, field_spelling, metadata_spelling};
ghost use Rattle.mt_types.specs.Limits.{FitsMetadata};

use crate::spelled::put_all;
use mt_bytes::{put_bytes, put_u8, put_u16, put_u32, put_u64};
use mt_path::{behind_first, first_part};
use mt_types::{Body, Field, Path, Text};
use std::alloc::AllocError;

/// Bytes behind two bytes of length.
pub fn put_text(out: &mut Vec<u8>, text: &[u8]) -> Result<(), AllocError>
    requires { length text.now < 2 ^ 16 }
    ensures { OnOk result (out.new.items ≡ out.old.items ++ text_spelling text.now) }
{
    put_u16(out, text.len() as u16)?;
    put_bytes(out, text)
}

/// Bytes behind four bytes of length.
pub fn put_long_text(out: &mut Vec<u8>, text: &[u8]) -> Result<(), AllocError>
    requires { length text.now < 2 ^ 32 }
    ensures { OnOk result (out.new.items ≡ out.old.items ++ long_text_spelling text.now) }
{
    put_u32(out, text.len() as u32)?;
    put_bytes(out, text)
}

/// A path.
#[tactic(auto, unfolding(crate::specs::Fields::path_spelling))]
pub fn put_path(out: &mut Vec<u8>, path: &Path) -> Result<(), AllocError>
    ensures { OnOk result (out.new.items ≡ out.old.items ++ path_spelling path.now) }
{
    let key = path.key();
    put_u8(out, path.area().number())?;
    put_u16(out, path.len() as u16)?;
    put_parts(out, key)
}

// The components of a key.
fn put_parts(out: &mut Vec<u8>, key: &[u8]) -> Result<(), AllocError>
    requires key { IsKey key.now }
    requires parts { AllByRecursion IsComponent (parts_of key.now) }
    ensures { OnOk result (out.new.items ≡ out.old.items ++ flat_map text_spelling (parts_of key.now)) }
{
    let mut left = key;
    while !left.is_empty() {
        put_text(out, first_part(left))?;
        left = behind_first(left);
    }
    Ok(())
}

/// The place and the length of a body.
pub fn put_body(out: &mut Vec<u8>, body: &Body) -> Result<(), AllocError>
    ensures { OnOk result (out.new.items ≡ out.old.items ++ body_spelling body.now) }
{
    put_u64(out, body.first)?;
    put_u64(out, body.len)
}

/// A place, where one is named.
pub fn put_place(out: &mut Vec<u8>, place: &Option<Path>) -> Result<(), AllocError>
    ensures { OnOk result (out.new.items ≡ out.old.items ++ optional_spelling path_spelling place.now) }
{
    match place {
        None => put_u8(out, 0),
        Some(path) => {
            put_u8(out, 1)?;
            put_path(out, path)
        }
    }
}

/// A reducer, where one is named.
pub fn put_reducer(out: &mut Vec<u8>, reducer: Option<u32>) -> Result<(), AllocError>
    ensures { OnOk result (out.new.items ≡ out.old.items ++ optional_spelling big_endian_32 reducer) }
{
    match reducer {
        None => put_u8(out, 0),
        Some(number) => {
            put_u8(out, 1)?;
            put_u32(out, number)
        }
    }
}

/// A durability, where one was asked for.
pub fn put_durability(out: &mut Vec<u8>, durability: Option<u8>) -> Result<(), AllocError>
    ensures { OnOk result (out.new.items ≡ out.old.items ++ optional_spelling byte_spelling durability) }
{
    match durability {
        None => put_u8(out, 0),
        Some(copies) => {
            put_u8(out, 1)?;
            put_u8(out, copies)
        }
    }
}

/// A command line that is run before, where there is one.
pub fn put_init(out: &mut Vec<u8>, init: &Option<Text>) -> Result<(), AllocError>
    requires { IfSome init.now (FitsCommandLine false) }
    ensures { OnOk result (out.new.items ≡ out.old.items ++ optional_spelling long_text_spelling init.now) }
{
    match init {
        None => put_u8(out, 0),
        Some(text) => {
            put_u8(out, 1)?;
            put_command_line(out, text)
        }
    }
}

/// A command line.
pub fn put_command_line(out: &mut Vec<u8>, text: &Text) -> Result<(), AllocError>
    requires { FitsCommandLine false text.now }
    ensures { OnOk result (out.new.items ≡ out.old.items ++ long_text_spelling text.now) }
{
    put_long_text(out, text.as_bytes())
}

/// A content type.
pub fn put_content_type(out: &mut Vec<u8>, text: &Text) -> Result<(), AllocError>
    requires { IsTrue (is_content_type text.now) }
    ensures { OnOk result (out.new.items ≡ out.old.items ++ text_spelling text.now) }
{
    put_text(out, text.as_bytes())
}

/// The metadata of an object.
#[tactic(auto, unfolding(crate::specs::Spelling::metadata_spelling))]
pub fn put_metadata(out: &mut Vec<u8>, fields: &[Field]) -> Result<(), AllocError>
    requires { FitsMetadata fields.now }
    ensures { OnOk result (out.new.items ≡ out.old.items ++ metadata_spelling fields.now) }
{
    put_u8(out, fields.len() as u8)?;
    put_all(out, fields)
}

/// A piece of metadata.
#[tactic(auto, unfolding(crate::specs::Spelling::field_spelling))]
pub fn put_field(out: &mut Vec<u8>, field: &Field) -> Result<(), AllocError>
    requires name { length field.now.name < 2 ^ 16 }
    requires value { length field.now.value < 2 ^ 16 }
    ensures { OnOk result (out.new.items ≡ out.old.items ++ field_spelling field.now) }
{
    put_text(out, field.name.as_bytes())?;
    put_text(out, field.value.as_slice())
}
