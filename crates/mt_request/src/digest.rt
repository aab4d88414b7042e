//! The digest that a request wants its body to have (RFC 1864).
ghost use Rattle.std.specs.Prelude.{◌≡◌};
ghost use Rattle.std.specs.Option.{option_copied};
ghost use Rattle.mt_request.specs.Digest.{digest_read, digest_refusal, wish_of};

use mt_error::ErrorCode;
use mt_ident::md5_read;
use mt_types::{Field, first_value};

/// The digest that a body is to have, by the first Content-MD5.
#[derive(Clone, Copy, Debug, PartialEq, Eq)]
pub enum Wish {
    /// There is no Content-MD5.
    None,
    /// It is the text of no digest, so that no body has it.
    Unreadable,
    /// This digest.
    Wants([u8; 16]),
}

// The digest whose text this is.
fn digest_read(text: &[u8]) -> Option<[u8; 16]>
    ensures { result ≡ digest_read text.now }
{
    md5_read(text)
}

/// The digest that the fields ask for.
pub fn wish_of(fields: &[Field]) -> Wish
    ensures { result ≡ wish_of fields.now }
{
    match first_value(fields, "content-md5") {
        None => Wish::None,
        Some(text) => match digest_read(text) {
            Some(digest) => Wish::Wants(digest),
            None => Wish::Unreadable,
        },
    }
}

/// The refusal of a body with this digest. Where its digest is not known yet, only a field that can't be read refuses it.
pub fn digest_refusal(wish: &Wish, digest: Option<&[u8; 16]>) -> Option<ErrorCode>
    ensures { result ≡ digest_refusal wish.now (option_copied digest.entry) }
{
    match wish {
        Wish::None => None,
        Wish::Unreadable => Some(ErrorCode::ContentMD5Mismatch),
        Wish::Wants(wanted) => match digest {
            None => None,
            Some(digest) => {
                if digest == wanted {
                    None
                } else {
                    Some(ErrorCode::ContentMD5Mismatch)
                }
            }
        },
    }
}
