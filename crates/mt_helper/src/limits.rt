//! The limits of helpers, and a law that says each as a number.
ghost use Rattle.std.specs.Prelude.{◌≡◌};

/// The number of parts that a text is split into, at most.
pub const MOST_PARTS: u32 = 1_024;

/// The number of fields in a key, at most.
pub const MOST_FIELDS: usize = 64;

/// The last number of a field; the first is 1.
pub const LAST_FIELD: u32 = 1_000;

/// The bytes that a helper reads, at most.
pub const LARGEST_INPUT: usize = 16_777_216;

/// The bytes that are read at once.
pub const PIECE: usize = 65_536;

/// The bytes that msplit reads at once.
pub const SMALL_PIECE: usize = 4_096;

/// Each limit is this number, whatever a definition calls it.
pub fn constants_are()
    ensures most_parts { MOST_PARTS ≡ 1024 }
    ensures most_fields { MOST_FIELDS ≡ 64 }
    ensures last_field { LAST_FIELD ≡ 1000 }
    ensures largest_input { LARGEST_INPUT ≡ 16777216 }
    ensures piece { PIECE ≡ 65536 }
    ensures small_piece { SMALL_PIECE ≡ 4096 }
{}
