//! MD5 digests (RFC 1321) and their text in base64 (RFC 4648, section 4).
ghost use Rattle.std.specs.Prelude.{◌≡◌, ◌↔◌, List, ℕ, IsAscii, Some, take};
ghost use Rattle.mt_ident.specs.Digests.{md5, IsDigest, digest_text};

use base64::engine::general_purpose::STANDARD;
use md5::{Digest, Md5};

/// The length of a digest, in bytes.
const DIGEST_SIZE: usize = 16;

/// The length of a digest's text, in bytes.
const TEXT_SIZE: usize = 24;

/// What a decoder asks for as room for 24 characters.
const DECODED_ROOM: usize = 18;

/// The digest of bytes. Where they come in pieces, `Md5` gives the same.
pub fn md5_of(bytes: &[u8]) -> [u8; 16]
    ensures value { result ≡ md5 bytes.now }
    ensures digest { IsDigest result }
{
    Md5::digest(bytes)
}

/// The text of a digest, 24 bytes of ASCII.
pub fn md5_text(digest: &[u8; 16]) -> [u8; 24]
    ensures text { result ≡ digest_text digest.now }
    ensures ascii { IsAscii result }
{
    let mut out = [0u8; TEXT_SIZE];
    let _ = STANDARD.encode_slice(digest, &mut out);
    out
}

/// The digest whose text this is. `None` exactly where it is the text of none: also where bits are left
/// over in the last character, or a padding sign is missing.
pub fn md5_read(text: &[u8]) -> Option<[u8; 16]>
    ensures exact { (d : List ℕ) → (result ≡ Some d) ↔ (IsDigest d × (text.now ≡ digest_text d)) }
{
    if text.len() != TEXT_SIZE {
        return None;
    }
    let mut out = [0u8; DECODED_ROOM];
    let Ok(count) = STANDARD.decode_slice_unchecked(text, &mut out) else {
        return None;
    };
    if count != DIGEST_SIZE {
        return None;
    }
    Some(front(&out))
}

// The digest in front of what a decoder had room for.
fn front(decoded: &[u8; 18]) -> [u8; 16]
    ensures { result ≡ take DIGEST_SIZE decoded.now }
{
    let mut digest = [0u8; 16];
    digest.copy_from_slice(&decoded[..DIGEST_SIZE]);
    digest
}
