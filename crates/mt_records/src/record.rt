//! A record.
use crate::head::RecordHead;

/// A record as a helper writes it.
#[derive(Debug, PartialEq, Eq, Drop)]
pub struct RawRecord<B> {
    /// What it asks for.
    pub head: RecordHead,
    /// Its bytes, or what stands for them.
    pub body: B,
}
