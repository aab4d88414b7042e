//! The options of msplit.
use mt_base::Sequence;

/// The options of msplit so far.
#[derive(Debug, Drop)]
pub(crate) struct SplitOptions {
    /// How many reducers there are.
    pub(crate) count: Option<u32>,
    /// The byte between two fields.
    pub(crate) delimiter: Option<u8>,
    /// The numbers of the fields in a key.
    pub(crate) fields: Option<Sequence<u32>>,
}
