//! Bytes as they stand in a target.
ghost use Rattle.std.specs.Prelude.{◌≡◌, ◌++◌, OnOk, string_bytes};
ghost use Rattle.mt_ask.specs.Requests.{escaped};

use percent_encoding::{AsciiSet, NON_ALPHANUMERIC, ascii_set, percent_encode};
use std::alloc::AllocError;

/// The ASCII bytes that are escaped in a target: all but letters, digits, `-._~` and the slash (RFC 3986, sections 2.3 and 3.3).
pub(crate) const ESCAPED: AsciiSet = ascii_set!(
    NON_ALPHANUMERIC
        .remove(b'-')
        .remove(b'.')
        .remove(b'_')
        .remove(b'~')
        .remove(b'/')
);

/// Appends bytes as they stand in a target.
#[tactic(auto, using(crate::proofs::Decoding::escaped_is))]
pub(crate) fn put_escaped(out: &mut String, bytes: &[u8]) -> Result<(), AllocError>
    ensures { OnOk result (string_bytes out.new ≡ string_bytes out.old ++ escaped bytes.now) }
{
    percent_encode(bytes, ESCAPED).append_to(out)
}
