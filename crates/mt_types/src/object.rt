//! What stands at a path: a directory or an object.
use mt_base::{Bytes, Duplicate, Sequence, Text};
use mt_path::Path;
use std::alloc::{AllocError, Global};

/// A field of a message, or of an object's metadata (RFC 9110, section 5).
#[derive(Debug, PartialEq, Eq, Drop)]
pub struct Field {
    /// The name in lower case.
    pub name: Text,
    /// The value without the blanks around it. It need not be UTF-8.
    pub value: Bytes,
}

/// Fields, in the order in which they came or are sent.
pub type Fields = Sequence<Field>;

/// An object.
#[derive(Debug, PartialEq, Eq, Drop)]
pub struct Object<B> {
    /// Its number, of which its etag is made: below 2^62.
    pub number: u64,
    /// Its bytes.
    pub body: B,
    /// Its content type: at most 255 bytes of 32 to 126.
    pub content_type: Text,
    /// How many copies were asked for, 1 to 6, where it was said. It has no effect in this server.
    pub durability: Option<u8>,
    /// Its metadata: fields whose names begin with `m-`, by name, equal names as they came.
    pub metadata: Fields,
    /// When it was put, in seconds since 1970.
    pub mtime: u64,
}

/// What stands at a path.
#[derive(Debug, PartialEq, Eq, Drop)]
pub enum Entry<B> {
    /// A directory.
    Directory {
        /// When it was made, in seconds since 1970.
        mtime: u64,
    },
    /// An object.
    Object(Object<B>),
}

/// A path and what stands there.
#[derive(Debug, PartialEq, Eq, Drop)]
pub struct Row<B> {
    /// The path.
    pub path: Path,
    /// What stands there.
    pub entry: Entry<B>,
}

/// Rows, in the order of their paths.
pub type RowList<B> = Sequence<Row<B>>;

impl Duplicate for Field {
    fn copy(&self, alloc: Global) -> Result<Field, AllocError> {
        Ok(Field {
            name: self.name.copy(alloc)?,
            value: self.value.copy(alloc)?,
        })
    }
}

impl<B: Duplicate> Duplicate for Object<B> {
    fn copy(&self, alloc: Global) -> Result<Object<B>, AllocError> {
        Ok(Object {
            number: self.number,
            body: self.body.copy(alloc)?,
            content_type: self.content_type.copy(alloc)?,
            durability: self.durability.copy(alloc)?,
            metadata: self.metadata.copy(alloc)?,
            mtime: self.mtime,
        })
    }
}

impl<B: Duplicate> Duplicate for Entry<B> {
    fn copy(&self, alloc: Global) -> Result<Entry<B>, AllocError> {
        match self {
            Entry::Directory { mtime } => Ok(Entry::Directory { mtime: *mtime }),
            Entry::Object(object) => Ok(Entry::Object(object.copy(alloc)?)),
        }
    }
}

impl<B: Duplicate> Duplicate for Row<B> {
    fn copy(&self, alloc: Global) -> Result<Row<B>, AllocError> {
        Ok(Row {
            path: self.path.copy(alloc)?,
            entry: self.entry.copy(alloc)?,
        })
    }
}
