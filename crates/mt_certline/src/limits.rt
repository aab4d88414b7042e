//! Limits of certificates.

/// The root of an item, in bytes.
pub const LONGEST_ROOT: usize = 200;
