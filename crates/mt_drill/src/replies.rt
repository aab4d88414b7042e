//! How many replies stand in some bytes.
ghost use Rattle.std.specs.Prelude.{◌≡◌};
ghost use Rattle.mt_drill.specs.DrillLine.{replies_in};

/// What each reply begins with (RFC 9112, section 4).
const BEGINNING: &[u8] = b"HTTP/1.1 ";

/// At how many places a reply begins.
pub(crate) fn replies_in(bytes: &[u8]) -> usize
    ensures { result ≡ replies_in bytes.now }
{
    let mut count = 0;
    let mut rest = bytes;
    'places: while !rest.is_empty() {
        if rest.starts_with(BEGINNING) {
            count += 1;
        }
        rest = &rest[1..];
    }
    count
}
