//! The limits of records, and a law that says each as a number.
ghost use Rattle.std.specs.Prelude.{◌≡◌};

/// A place or a name in a record, in bytes.
pub const LONGEST_TEXT: usize = 1_200;

/// The front of a record, in bytes: of an output with a place and a reducer, 1 + 1 + 2 + 1,200 + 1 + 4.
pub const LONGEST_HEAD: usize = 1_209;

/// The end of a record file, in bytes: its mark and the length of the body, 4 + 8.
pub const END_LEN: usize = 12;

/// Each limit is this number, whatever a definition calls it.
pub fn constants_are()
    ensures longest_text { LONGEST_TEXT ≡ 1200 }
    ensures longest_head { LONGEST_HEAD ≡ 1209 }
    ensures end_len { END_LEN ≡ 12 }
{}
