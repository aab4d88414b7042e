//! Where a byte stands, and what stands from a place on.
ghost use Rattle.std.specs.Prelude.{◌≡◌, ◌≢◌, ◌<◌, ◌≤◌, ◌^◌, ℕ, length, drop, slice_index};

use memchr::memchr;

/// The first place of a byte, or the length where it is nowhere.
pub(crate) fn place_of(byte: u8, bytes: &[u8]) -> usize
    ensures bound { result ≤ length bytes.now }
    ensures small { result < 2 ^ 63 }
    ensures none { (k : ℕ) → k < result → slice_index bytes.now k ≢ byte }
    ensures found { result < length bytes.now → slice_index bytes.now result ≡ byte }
{
    match memchr(byte, bytes) {
        Some(place) => place,
        None => bytes.len(),
    }
}

/// What stands from this place on.
pub(crate) fn behind(bytes: &[u8], from: usize) -> &[u8]
    requires { from ≤ length bytes.now }
    ensures { result.now ≡ drop from bytes.now }
{
    &bytes[from..]
}
