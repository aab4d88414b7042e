//! Limits of certificates.

/// A line with its line feed, in bytes.
pub const LONGEST_LINE: u64 = 16_777_216;

/// The lines of a certificate.
pub const MOST_LINES: u64 = 16_777_216;
