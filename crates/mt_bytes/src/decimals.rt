//! Decimal numbers in text.
ghost use Rattle.std.specs.Prelude.{◌≡◌, ◌↔◌, IsSome};
ghost use Rattle.mt_base.specs.Numbers.{IsDecimal};
ghost use Rattle.mt_bytes.specs.Decimals.{decimal_number};

/// A decimal has at most so many digits, so that it fits 64 bits.
const MOST_DIGITS: usize = 19;

/// The number that a text writes in decimal digits. `None` exactly where it isn't 1 to 19 digits; leading
/// zeros are allowed. Takes no memory.
pub fn read_decimal(text: &[u8]) -> Option<u64>
    ensures value { result ≡ decimal_number text.now }
    ensures exact { IsSome result ↔ IsDecimal text.now }
{
    if text.is_empty() || text.len() > MOST_DIGITS {
        return None;
    }
    let mut value = 0;
    for byte in text {
        if !byte.is_ascii_digit() {
            return None;
        }
        value = value * 10 + (*byte - b'0') as u64;
    }
    Some(value)
}
