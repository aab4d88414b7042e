//! Heads and ends, as bytes. On an error, which is want of memory, what a vector holds is not said.
ghost use Rattle.std.specs.Prelude.{◌≡◌, ◌++◌, IfOk, IfSome, IsTrue, OnOk};
ghost use Rattle.mt_base.specs.Numbers.{big_endian_32};
ghost use Rattle.mt_codec.specs.Fields.{optional_spelling, text_spelling};
ghost use Rattle.mt_records.specs.Heads.{IsShort, head_bytes, is_short};
ghost use Rattle.mt_records.specs.Windows.{end_bytes};

use crate::head::RecordHead;
use crate::limits::END_LEN;
use mt_base::Text;
use mt_bytes::{put_bytes, put_u8, put_u16, put_u32};
use std::alloc::{AllocError, Global};

// A text behind two bytes of length.
fn put_text(out: &mut Vec<u8>, text: &Text) -> Result<(), AllocError>
    requires { IsTrue (is_short text.now) }
    ensures { OnOk result (out.new.items ≡ out.old.items ++ text_spelling text.now) }
{
    put_u16(out, text.len() as u16)?;
    put_bytes(out, text.as_bytes())
}

// A place, where one is named.
fn put_place(out: &mut Vec<u8>, place: &Option<Text>) -> Result<(), AllocError>
    requires { IfSome place.now (λ t. IsTrue (is_short t)) }
    ensures { OnOk result (out.new.items ≡ out.old.items ++ optional_spelling text_spelling place.now) }
{
    match place {
        None => put_u8(out, 0),
        Some(text) => {
            put_u8(out, 1)?;
            put_text(out, text)
        }
    }
}

// A reducer, where one is named.
fn put_reducer(out: &mut Vec<u8>, reducer: Option<u32>) -> Result<(), AllocError>
    ensures { OnOk result (out.new.items ≡ out.old.items ++ optional_spelling big_endian_32 reducer) }
{
    match reducer {
        None => put_u8(out, 0),
        Some(number) => {
            put_u8(out, 1)?;
            put_u32(out, number)
        }
    }
}

/// The bytes of a head. Its texts have at most 1,200 bytes.
#[tactic(auto, unfolding(crate::specs::Heads::head_bytes))]
pub fn encode_head(alloc: Global, head: &RecordHead) -> Result<Vec<u8>, AllocError>
    requires short { IsShort head.now }
    ensures { IfOk result (λ bytes. bytes.items ≡ head_bytes head.now) }
{
    let mut out = Vec::new(alloc);
    match head {
        RecordHead::Emit { place, reducer } => {
            put_u8(&mut out, 1)?;
            put_place(&mut out, place)?;
            put_reducer(&mut out, *reducer)?;
        }
        RecordHead::Keep { place } => {
            put_u8(&mut out, 2)?;
            put_text(&mut out, place)?;
        }
        RecordHead::Ref { name } => {
            put_u8(&mut out, 3)?;
            put_text(&mut out, name)?;
        }
    }
    Ok(out)
}

/// The end of a record whose body has so many bytes. It takes no memory.
pub fn end_of(len: u64) -> [u8; END_LEN]
    ensures { result ≡ end_bytes len }
{
    let [a, b, c, d, e, f, g, h] = len.to_be_bytes();
    [b'M', b'R', b'E', b'C', a, b, c, d, e, f, g, h]
}
