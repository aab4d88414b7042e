//! The limits that records keep beside those of their values.

/// What the names of outputs begin with, in bytes.
pub const LONGEST_ROOT: usize = 200;

/// Parts of an upload: their indexes are 0 to 9,999.
pub const MOST_PARTS: u16 = 10_000;
