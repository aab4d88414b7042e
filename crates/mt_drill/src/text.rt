//! Words and numbers of lines.
ghost use Rattle.std.specs.Prelude.{◌≡◌, ◌++◌, OnOk};
ghost use Rattle.std.specs.Fmt.{decimal};

use mt_bytes::{put_bytes, put_decimal};
use std::alloc::AllocError;

/// Appends words.
pub(crate) fn put_words(out: &mut Vec<u8>, words: &[u8]) -> Result<(), AllocError>
    ensures { OnOk result (out.new.items ≡ out.old.items ++ words.now) }
{
    put_bytes(out, words)
}

/// Appends words and a number.
pub(crate) fn put_number(out: &mut Vec<u8>, words: &[u8], number: u64) -> Result<(), AllocError>
    ensures { OnOk result (out.new.items ≡ out.old.items ++ words.now ++ decimal number) }
{
    put_bytes(out, words)?;
    put_decimal(out, number)
}
