//! An object that is put in parts.
use mt_base::{Duplicate, Sequence, Text};
use mt_path::Path;
use std::alloc::{AllocError, Global};

/// A part of an upload.
#[derive(Debug, PartialEq, Eq, Drop)]
pub struct PartRow<B> {
    /// Which part it is, 0 to 9,999.
    pub index: u16,
    /// Its number, of which its etag is made: below 2^62.
    pub number: u64,
    /// Its bytes.
    pub body: B,
}

/// Parts, by their index.
pub type PartRows<B> = Sequence<PartRow<B>>;

/// The numbers of the parts that a commit lists, in its order.
pub type PartNumbers = Sequence<u64>;

/// How far an upload has come.
#[derive(Clone, Copy, Debug, PartialEq, Eq)]
pub enum Stage {
    /// It takes parts.
    Open,
    /// Its object was put.
    Committed,
    /// It was given up.
    Aborted,
}

/// An object that is put in parts, and appears all at once.
#[derive(Debug, PartialEq, Eq, Drop)]
pub struct Upload<B> {
    /// Its number, a multiple of 4,096 below 2^62.
    pub number: u64,
    /// Where the object is to stand.
    pub path: Path,
    /// The object's content type: at most 255 bytes of 32 to 126.
    pub content_type: Text,
    /// When it was begun, in seconds since 1970.
    pub moment: u64,
    /// Its parts so far; none once it is no longer open.
    pub parts: PartRows<B>,
    /// How far it has come.
    pub stage: Stage,
}

/// Uploads, in the order in which they were begun.
pub type UploadList<B> = Sequence<Upload<B>>;

impl<B: Duplicate> Duplicate for PartRow<B> {
    fn copy(&self, alloc: Global) -> Result<PartRow<B>, AllocError> {
        Ok(PartRow {
            index: self.index,
            number: self.number,
            body: self.body.copy(alloc)?,
        })
    }
}

impl Duplicate for Stage {
    fn copy(&self, _alloc: Global) -> Result<Stage, AllocError> {
        Ok(*self)
    }
}

impl<B: Duplicate> Duplicate for Upload<B> {
    fn copy(&self, alloc: Global) -> Result<Upload<B>, AllocError> {
        Ok(Upload {
            number: self.number,
            path: self.path.copy(alloc)?,
            content_type: self.content_type.copy(alloc)?,
            moment: self.moment,
            parts: self.parts.copy(alloc)?,
            stage: self.stage,
        })
    }
}
