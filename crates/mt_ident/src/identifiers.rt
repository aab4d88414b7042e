//! Identifiers: version 8 UUIDs of RFC 9562 that hold a kind and a number.
ghost use Rattle.std.specs.Prelude.{◌≡◌, ◌<◌, ◌^◌, ◌↔◌, ℕ, All, IsAscii, IsTrue, MatchOption, Some, false, nat_le, not};
ghost use Rattle.mt_ident.specs.Identifiers.{IsKind, IsIdentifier, IsIdentifierByte, identifier_text, identifier_number, is_from};

use mt_base::NUMBERS_END;
use std::str;
use uuid::Uuid;

/// The greatest kind: 1 is an object's, 2 a job's, 3 an output's and 4 an upload's.
const LAST_KIND: u8 = 4;

/// The variant's bit of RFC 9562, section 4.1, above the number in the last 64 bits.
const VARIANT: u64 = 1 << 63;

/// The kind's place, the first 32 bits of the first 64.
const KIND: u64 = 1 << 32;

/// The version 8 of RFC 9562, section 5.8, in its place of the first 64 bits.
const VERSION: u64 = 0x8000;

/// The text of an identifier, 36 bytes of ASCII: `0000000K-0000-8000-` and the number with the variant's
/// bit in hexadecimal.
pub fn uuid_text(kind: u8, number: u64) -> [u8; 36]
    requires kind { IsKind kind }
    requires number { number < 2 ^ 62 }
    ensures text { result ≡ identifier_text kind number }
    ensures bytes { All IsIdentifierByte result }
    ensures ascii { IsAscii result }
{
    let id = Uuid::from_u64_pair(kind as u64 * KIND + VERSION, VARIANT + number);
    let mut buffer = [0u8; 36];
    let text = id.hyphenated().encode_lower(&mut buffer);
    let mut out = [0u8; 36];
    out.copy_from_slice(text.as_bytes());
    out
}

/// The number of the identifier of this kind that a text is. `None` exactly where it is none: also for
/// upper case, another kind, another form of the same UUID, and a kind that isn't 1 to 4.
pub fn uuid_number(kind: u8, text: &[u8]) -> Option<u64>
    ensures number { result ≡ identifier_number kind text.now }
    ensures exact { (n : ℕ) → (result ≡ Some n) ↔ IsIdentifier kind n text.now }
{
    let number = last_bits(text)?;
    if is_identifier(kind, number, text) {
        Some(number)
    } else {
        None
    }
}

/// The least number whose identifier of this kind doesn't stand before a marker, in the order of their bytes: those that don't are it and
/// all above it. `None` where each stands before it. At most 62 texts are made.
pub fn least_number(kind: u8, marker: &[u8]) -> Option<u64>
    requires { IsKind kind }
    ensures { MatchOption result ((m : ℕ) → m < 2 ^ 62 → is_from kind marker.now m ≡ false) (λ n. (n < 2 ^ 62) × ((m : ℕ) → m < 2 ^ 62 → is_from kind marker.now m ≡ nat_le n m)) }
{
    let mut low = 0;
    let mut high = NUMBERS_END;
    while low < high {
        let middle = low + (high - low) / 2;
        if is_before(kind, middle, marker) {
            low = middle + 1;
        } else {
            high = middle;
        }
    }
    if low < NUMBERS_END { Some(low) } else { None }
}

// Whether an identifier stands before a marker.
fn is_before(kind: u8, number: u64, marker: &[u8]) -> bool
    requires kind { IsKind kind }
    requires number { number < 2 ^ 62 }
    ensures { result ≡ not (is_from kind marker.now number) }
{
    uuid_text(kind, number).as_slice() < marker
}

// Whether a text is that of this identifier.
fn is_identifier(kind: u8, number: u64, text: &[u8]) -> bool
    ensures { IsTrue result ↔ IsIdentifier kind number text.now }
{
    if kind == 0 || kind > LAST_KIND || number >= NUMBERS_END {
        return false;
    }
    uuid_text(kind, number).as_slice() == text
}

// The last 63 bits of a UUID in any of its forms, without the variant's bit.
fn last_bits(text: &[u8]) -> Option<u64>
    ensures { (kind n : ℕ) → IsIdentifier kind n text.now → result ≡ Some n }
{
    let Ok(shown) = str::from_utf8(text) else {
        return None;
    };
    let Ok(id) = Uuid::parse_str(shown) else {
        return None;
    };
    Some(id.as_u64_pair().1 % VARIANT)
}
