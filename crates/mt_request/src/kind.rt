//! What a PUT makes, by its Content-Type.
ghost use Rattle.std.specs.Prelude.{◌≡◌, IfOk};
ghost use Rattle.std.specs.Option.{option_copied};
ghost use Rattle.mt_request.specs.Kind.{bare, kind_named, kind_of};

use mt_base::is_blank;
use std::alloc::{AllocError, Global};

/// What a PUT makes.
#[derive(Clone, Copy, Debug, PartialEq, Eq)]
pub enum Kind {
    /// An object.
    Object,
    /// A directory.
    Directory,
    /// A link to an object.
    Link,
}

/// A value without its spaces and tabs, in lower case.
pub fn bare(alloc: Global, value: &[u8]) -> Result<Vec<u8>, AllocError>
    ensures { IfOk result (λ v. v.items ≡ bare value.now) }
{
    let mut out = Vec::new(alloc);
    for byte in value {
        if !is_blank(*byte) {
            out.push(byte.to_ascii_lowercase())?;
        }
    }
    Ok(out)
}

// What a bare value names.
fn kind_named(name: &[u8]) -> Kind
    ensures { result ≡ kind_named name.now }
{
    if name == b"application/json;type=directory".as_slice()
        || name == b"application/x-json-stream;type=directory".as_slice()
    {
        return Kind::Directory;
    }
    if name == b"application/json;type=link".as_slice() {
        return Kind::Link;
    }
    Kind::Object
}

/// What a PUT with this Content-Type makes: a directory, a link, or an object, also where there is none. Case, spaces and
/// tabs count for nothing.
pub fn kind_of(alloc: Global, value: Option<&[u8]>) -> Result<Kind, AllocError>
    ensures { IfOk result (λ kind. kind ≡ kind_of (option_copied value.entry)) }
{
    match value {
        Some(value) => Ok(kind_named(bare(alloc, value)?.as_slice())),
        None => Ok(Kind::Object),
    }
}
