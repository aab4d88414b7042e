//! Laws: what is written is read again, and bytes begin with one number alone.
ghost use Rattle.std.specs.Prelude.{◌≡◌, ◌<◌, ◌^◌, ◌++◌, List, ℕ, IfOk, Some, codes};
ghost use Rattle.std.specs.Fmt.{decimal};
ghost use Rattle.mt_base.specs.Numbers.{big_endian_16, big_endian_32, big_endian_64};
ghost use Rattle.mt_bytes.specs.Decimals.{decimal_number};

use crate::cursor::{Cursor, Short};
use crate::decimals::read_decimal;
use crate::put::{put_bytes, put_decimal, put_u64};
use std::alloc::{AllocError, Global};

/// Bytes that begin with a number of some size begin with that number alone.
pub fn one_number()
    ensures two { (n m : ℕ) (xs ys : List ℕ) → n < 2 ^ 16 → m < 2 ^ 16
        → big_endian_16 n ++ xs ≡ big_endian_16 m ++ ys → (n ≡ m) × (xs ≡ ys) }
    ensures four { (n m : ℕ) (xs ys : List ℕ) → n < 2 ^ 32 → m < 2 ^ 32
        → big_endian_32 n ++ xs ≡ big_endian_32 m ++ ys → (n ≡ m) × (xs ≡ ys) }
    ensures eight { (n m : ℕ) (xs ys : List ℕ) → n < 2 ^ 64 → m < 2 ^ 64
        → big_endian_64 n ++ xs ≡ big_endian_64 m ++ ys → (n ≡ m) × (xs ≡ ys) }
{}

/// A number that is written is read again, whatever follows, and then what follows is left.
pub fn number_again(alloc: Global, value: u64, rest: &[u8]) -> Result<(u64, Vec<u8>), AllocError>
    ensures { IfOk result (λ r. (r.0 ≡ value) × (r.1.items ≡ rest.now)) }
{
    let mut out = Vec::new(alloc);
    put_u64(&mut out, value)?;
    put_bytes(&mut out, rest)?;
    let mut cursor = Cursor::new(&out);
    match (cursor.u64(), cursor.bytes(rest.len())) {
        (Ok(number), Ok(piece)) => Ok((number, Vec::from_slice(alloc, piece)?)),
        _ => unreachable!(),
    }
}

/// A decimal that is written is read again, if it has at most 19 digits.
pub fn decimal_again(alloc: Global, value: u64) -> Result<Option<u64>, AllocError>
    requires { value < 10 ^ 19 }
    ensures { IfOk result (λ number. number ≡ Some value) }
{
    let mut out = Vec::new(alloc);
    put_decimal(&mut out, value)?;
    Ok(read_decimal(&out))
}
