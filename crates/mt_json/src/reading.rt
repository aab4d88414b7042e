//! JSON values are read from bytes, and lines from bytes.
ghost use Rattle.std.specs.Prelude.{◌≡◌, ◌≢◌, ◌<◌, ◌≤◌, ◌^◌, ℕ, drop, length, slice_index, IfOk, option_map};
ghost use Rattle.serde_json.specs.View.{view};
ghost use Rattle.mt_json.specs.Lines as words;
ghost use Rattle.mt_json.specs.Plain.{value_of};

use memchr::memchr;
use serde_json::Value;
use std::alloc::{AllocError, Global};

/// The JSON value (RFC 8259) that bytes are, blanks around it aside; none where they are no UTF-8, or no JSON that nests at
/// most 127 deep. Of a key that comes twice the last value stands. The answer is an error for want of memory alone.
pub fn read_value(alloc: Global, bytes: &[u8]) -> Result<Option<Value>, AllocError>
    ensures { IfOk result (λ v. option_map view v ≡ value_of bytes.now) }
{
    match Value::from_slice(alloc, bytes) {
        Ok(value) => Ok(Some(value)),
        Err(e) => {
            if e.is_memory() {
                Err(AllocError)
            } else {
                Ok(None)
            }
        }
    }
}

// The place of the first line feed, or the length where there is none.
fn feed_at(bytes: &[u8]) -> usize
    ensures bound { result ≤ length bytes.now }
    ensures small { result < 2 ^ 63 }
    ensures none { (k : ℕ) → k < result → slice_index bytes.now k ≢ 10 }
    ensures found { result < length bytes.now → slice_index bytes.now result ≡ 10 }
{
    match memchr(b'\n', bytes) {
        Some(place) => place,
        None => bytes.len(),
    }
}

// What stands from this place on.
fn behind(bytes: &[u8], from: usize) -> &[u8]
    requires { from ≤ length bytes.now }
    ensures { result.now ≡ drop from bytes.now }
{
    &bytes[from..]
}

/// What stands before the first line feed, and what stands behind it; none where there is no line feed. It takes no memory.
pub fn first_line(bytes: &[u8]) -> Option<(&[u8], &[u8])>
    ensures { option_map (λ p. (p.0.now, p.1.now)) result ≡ words.first_line bytes.now }
{
    let end = feed_at(bytes);
    if end == bytes.len() {
        return None;
    }
    Some((&bytes[..end], behind(bytes, end + 1)))
}
