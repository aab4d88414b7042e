//! What the children of the table do.
ghost use Rattle.std.specs.Prelude.{◌≡◌, IfOk};
ghost use Rattle.mt_spawn.specs.Orders.{input_from};
ghost use Rattle.spawn_rows.specs.Echo.{made_of, whole};

use mt_base::{Bytes, Sequence};
use mt_spawn::{Order, Work};
use mt_types::{Made, Raw, RecordFile};
use std::alloc::{AllocError, Global};

/// The number of the record file that a child writes.
const FILE: u32 = 3;

/// A child writes its input to standard output, its base to a record file, and its command line to standard error; or so many bytes
/// that they are too many.
#[derive(Drop)]
pub struct Echo {
    /// How many are too many.
    pub too_large: Option<u64>,
}

// What a child writes.
fn made_of(
    alloc: Global,
    too_large: Option<u64>,
    input: &[u8],
    base: &[u8],
) -> Result<Made, AllocError>
    ensures { IfOk result (λ made. made ≡ made_of too_large input.now base.now) }
{
    match too_large {
        Some(total) => Ok(Made::TooLarge { total }),
        None => whole(alloc, input, base),
    }
}

// Standard output, and one record file.
fn whole(alloc: Global, out: &[u8], file: &[u8]) -> Result<Made, AllocError>
    ensures { IfOk result (λ made. made ≡ whole out.now file.now) }
{
    let bytes = Bytes::from_slice(alloc, file)?;
    let mut files = Vec::with_capacity(alloc, 1)?;
    files.push(RecordFile {
        number: FILE,
        bytes,
    })?;
    let out = Bytes::from_slice(alloc, out)?;
    Ok(Made::Whole {
        out,
        files: Sequence::from_vec(files),
    })
}

// The input of an order in the bytes that came with it.
fn input_of<'a>(order: &Order, bytes: &'a [u8]) -> &'a [u8]
    ensures { result.now ≡ input_from order.now bytes.now }
{
    &bytes[..bytes.len().min(order.input as usize)]
}

impl Work for Echo {
    ghost use Rattle.spawn_rows.specs.Echo.{raw_of};

    ghost raw_of = { λ w. raw_of w.too_large };

    fn work(
        &self,
        alloc: Global,
        order: &Order,
        bytes: &[u8],
        otherwise: bool,
    ) -> Result<Raw, AllocError> {
        let input = input_of(order, bytes);
        let made = made_of(alloc, self.too_large, input, order.base.as_bytes())?;
        let stderr = Bytes::from_slice(alloc, order.exec.as_bytes())?;
        let status = if otherwise { 7 } else { 0 };
        Ok(Raw {
            status,
            stderr,
            made,
        })
    }
}
