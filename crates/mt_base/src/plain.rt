//! Bytes without a type of their own: zeros to be written over, and ASCII as a text.
ghost use Rattle.std.specs.Prelude.{◌≡◌, length, replicate, IfOk, IsAscii};

use std::alloc::{AllocError, Global};
use std::str;

/// So many zeros, taken at once.
pub fn zeros(alloc: Global, len: usize) -> Result<Vec<u8>, AllocError>
    ensures zeros { IfOk result (λ v. v.items ≡ replicate len 0) }
    ensures length { IfOk result (λ v. length v.items ≡ len) }
{
    let mut bytes = Vec::with_capacity(alloc, len)?;
    bytes.resize(len, 0)?;
    Ok(bytes)
}

/// ASCII as a text, without taking memory.
pub fn ascii(bytes: &[u8]) -> &str
    requires { IsAscii bytes.now }
    ensures { result.now ≡ bytes.now }
{
    match str::from_utf8(bytes) {
        Ok(text) => text,
        Err(_) => unreachable!(),
    }
}
