//! A range of what a task left.
use mt_base::Duplicate;
use mt_spawn::Part;
use std::alloc::{AllocError, Global};

/// Bytes of a part of what a task left. It stands for a body that is not read yet.
#[derive(Clone, Copy, Debug, PartialEq, Eq)]
pub struct Range {
    /// The part.
    pub part: Part,
    /// Where they begin in it, counted from 0.
    pub from: u64,
    /// How many bytes there are.
    pub len: u64,
}

impl Duplicate for Range {
    fn copy(&self, _alloc: Global) -> Result<Range, AllocError> {
        Ok(*self)
    }
}
