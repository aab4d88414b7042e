//! Children that write a word and what they read.
ghost use Rattle.std.specs.Prelude.{◌≡◌, IfOk};
ghost use Rattle.mt_spawn.specs.Orders.{input_from};
ghost use Rattle.lives_rows.specs.Children.{said};

use mt_base::{Bytes, Sequence};
use mt_spawn::{Order, Work};
use mt_types::{Made, Raw};
use std::alloc::{AllocError, Global};

/// A child writes this word and then its input to standard output, and ends with 0.
#[derive(Drop)]
pub struct Says {
    pub word: Vec<u8>,
}

// These bytes on standard output.
fn written(alloc: Global, out: Vec<u8>) -> Result<Raw, AllocError>
    ensures { IfOk result (λ raw. raw ≡ said out.items) }
{
    Ok(Raw {
        status: 0,
        stderr: Bytes::from_slice(alloc, b"")?,
        made: Made::Whole {
            out: Bytes::from_vec(out),
            files: Sequence::new(alloc),
        },
    })
}

// The input of an order in the bytes that came with it.
fn input_of<'a>(order: &Order, bytes: &'a [u8]) -> &'a [u8]
    ensures { result.now ≡ input_from order.now bytes.now }
{
    &bytes[..bytes.len().min(order.input as usize)]
}

impl Work for Says {
    ghost use Rattle.std.specs.Prelude.{◌++◌};

    ghost raw_of = { λ w run input otherwise. said (w.word.items ++ input) };

    fn work(
        &self,
        alloc: Global,
        order: &Order,
        bytes: &[u8],
        _otherwise: bool,
    ) -> Result<Raw, AllocError> {
        let mut out = Vec::from_slice(alloc, &self.word)?;
        out.extend_from_slice(input_of(order, bytes))?;
        written(alloc, out)
    }
}
