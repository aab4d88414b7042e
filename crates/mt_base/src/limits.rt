//! Limits of numbers that several crates keep.

/// The last moment, 9999-12-31T23:59:59Z, in seconds since 1970.
pub const LAST_MOMENT: u64 = 253_402_300_799;

/// Numbers of objects, jobs and uploads are below this, 2 ^ 62: identifiers have room for no larger one.
pub const NUMBERS_END: u64 = 4_611_686_018_427_387_904;
