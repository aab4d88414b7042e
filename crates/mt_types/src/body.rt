//! A body in the log.
ghost use Rattle.std.specs.Prelude.{◌≡◌};

use mt_base::Duplicate;
use std::alloc::{AllocError, Global};

/// A body that is stored in the log, by reference.
#[derive(Debug, PartialEq, Eq, Drop)]
pub struct Body {
    /// The place in the log of its first piece, in bytes; 0 where it is empty.
    pub first: u64,
    /// The number of its bytes.
    pub len: u64,
    /// The MD5 digest of its bytes (RFC 1321).
    pub md5: [u8; 16],
}

impl Body {
    /// The number of its bytes.
    pub fn size(&self) -> u64
        ensures { result ≡ self.now.len }
    {
        self.len
    }
}

impl Duplicate for Body {
    fn copy(&self, _alloc: Global) -> Result<Body, AllocError> {
        Ok(Body {
            first: self.first,
            len: self.len,
            md5: self.md5,
        })
    }
}
