//! Which bytes may stand in a path.
ghost use Rattle.std.specs.Prelude.{◌≡◌, ◌↔◌, IsTrue};
ghost use Rattle.std.specs.List.{list_all, list_any};
ghost use Rattle.mt_path.specs.AccountPath.{IsComponent, IsLogin, is_barred, is_component, is_login, is_login_byte};

use crate::limits::{LONGEST_COMPONENT, LONGEST_LOGIN};
use std::str;

/// The control character that stands behind the printable ones.
const DELETE: u8 = 127;

/// Whether a name may stand in a path: 1 to 255 bytes of UTF-8 without slashes and control characters,
/// and neither `.` nor `..`. Takes no memory.
pub fn is_component(name: &[u8]) -> bool
    ensures value { result ≡ is_component name.now }
    ensures exact { IsTrue result ↔ IsComponent name.now }
{
    if name.is_empty() || name.len() > LONGEST_COMPONENT {
        return false;
    }
    if name == b".".as_slice() || name == b"..".as_slice() || has_barred(name) {
        return false;
    }
    str::from_utf8(name).is_ok()
}

/// Whether a name is one of an account: 1 to 64 letters, digits, `_` or `-`. Takes no memory.
pub fn is_login(name: &[u8]) -> bool
    ensures value { result ≡ is_login name.now }
    ensures exact { IsTrue result ↔ IsLogin name.now }
{
    if name.is_empty() || name.len() > LONGEST_LOGIN {
        return false;
    }
    all_login_bytes(name)
}

fn has_barred(name: &[u8]) -> bool
    ensures { result ≡ list_any is_barred name.now }
{
    name.iter().any(|b| *b < b' ' || *b == b'/' || *b == DELETE)
}

fn all_login_bytes(name: &[u8]) -> bool
    ensures { result ≡ list_all is_login_byte name.now }
{
    name.iter()
        .all(|b| b.is_ascii_alphanumeric() || *b == b'_' || *b == b'-')
}
