//! What a request asks for of objects and directories.
ghost use Rattle.std.specs.Prelude.{◌≡◌};
ghost use Rattle.std.specs.Option.{option_copied};
ghost use Rattle.mt_request.specs.Requests.{head_refusal};

use crate::digest::{Wish, digest_refusal};
use crate::query::Page;
use mt_base::Text;
use mt_cond::Range;
use mt_error::{ErrorCode, Refused};
use mt_path::Path;
use mt_types::Fields;

/// What is to be done.
#[derive(Debug, PartialEq, Eq, Drop)]
pub enum Doing {
    /// Nothing: the head is refused.
    Nothing,
    /// The body is to be stored as an object.
    PutObject {
        /// Where.
        path: Path,
        /// Its content type, at most 255 bytes of 32 to 126, with no space at either end.
        content_type: Text,
        /// How many copies are asked for, 1 to 6, where it is said.
        durability: Option<u8>,
        /// Its metadata, by name, those of one name as they came; at most 4,096 bytes.
        metadata: Fields,
    },
    /// A directory is to be made.
    PutDirectory {
        /// Where.
        path: Path,
    },
    /// An object is to be linked.
    PutLink {
        /// Where the link is to stand.
        path: Path,
        /// The object.
        source: Path,
    },
    /// What is at a path is to be deleted.
    Remove {
        /// Which.
        path: Path,
    },
    /// What is at a path is to be shown.
    Look {
        /// Which.
        path: Path,
        /// The page of a directory; none where the query's limit is none.
        page: Option<Page>,
        /// The bytes of an object, where a GET asks for a part of it.
        range: Option<Range>,
    },
}

/// What a head asks for.
#[derive(Debug, PartialEq, Eq, Drop)]
pub struct Request {
    /// The first refusal that stands before the digest of the body.
    pub early: Option<Refused>,
    /// The digest that the body is to have.
    pub wish: Wish,
    /// The first refusal that stands behind the digest. It is looked for only where none stands before it.
    pub late: Option<ErrorCode>,
    /// What is to be done; nothing where one of the two refuses.
    pub doing: Doing,
}

impl Request {
    /// The first refusal of the head, whose body has this digest; without one, the first that stands whatever the body is.
    pub fn refusal(&self, digest: Option<&[u8; 16]>) -> Option<Refused>
        ensures { result ≡ head_refusal self.now (option_copied digest.entry) }
    {
        if let Some(refused) = self.early {
            return Some(refused);
        }
        if let Some(code) = digest_refusal(&self.wish, digest) {
            return Some(Refused::plain(code));
        }
        match self.late {
            Some(code) => Some(Refused::plain(code)),
            None => None,
        }
    }
}
