//! The limits that values keep, and a law that says each as a number.
ghost use Rattle.std.specs.Prelude.{◌≡◌, ◌∷◌, []};

use mt_base::{LAST_MOMENT, NUMBERS_END};

/// An account has at most so many commands, 2 ^ 50 - 1.
pub const MOST_COMMANDS: u64 = 1_125_899_906_842_623;

/// A command makes at most so many objects, so numbers of jobs and uploads are multiples of it.
pub const NUMBERS_A_COMMAND: u64 = 4_096;

/// A content type, in bytes.
pub const LONGEST_CONTENT_TYPE: usize = 255;

/// The durability that was asked for is at most this.
pub const LARGEST_DURABILITY: u8 = 6;

/// Pairs of metadata, as many as a message has fields.
pub const MOST_METADATA: usize = 100;

/// Names and values of metadata together, in bytes.
pub const LARGEST_METADATA: usize = 4_096;

/// The name of a job, in bytes.
pub const LONGEST_NAME: usize = 16_777_216;

/// Phases of a job.
pub const MOST_PHASES: usize = 16;

/// Reducers of a phase.
pub const MOST_REDUCERS: u32 = 1_024;

/// Assets of a phase.
pub const MOST_ASSETS: usize = 64;

/// A command line, in bytes.
pub const LONGEST_COMMAND_LINE: usize = 65_536;

/// Records of a task.
pub const MOST_RECORDS: usize = 4_095;

/// The front of standard error that is kept, in bytes.
pub const LONGEST_STDERR: usize = 1_024;

/// Standard output and the record files of a task together, in bytes.
pub const LARGEST_OUTPUT: u64 = 16_777_216;

/// The last index of a part of an upload.
pub const LAST_PART: u16 = 9_999;

/// The body of a put, in bytes.
pub const LARGEST_BODY: u64 = 1_073_741_824;

/// The object that the parts of an upload are joined to, in bytes.
pub const LARGEST_JOINED: u64 = 1_073_741_824;

/// The bytes of a body in one piece.
pub const LARGEST_PIECE: usize = 65_536;

/// The characters of a token besides letters and digits (RFC 9110, section 5.6.2).
pub const TOKEN_MARKS: [u8; 15] = *b"!#$%&'*+-.^_`|~";

/// Each limit is this number, whatever a definition calls it.
pub fn constants_are()
    ensures last_moment { LAST_MOMENT ≡ 253402300799 }
    ensures numbers_end { NUMBERS_END ≡ 4611686018427387904 }
    ensures most_commands { MOST_COMMANDS ≡ 1125899906842623 }
    ensures numbers_a_command { NUMBERS_A_COMMAND ≡ 4096 }
    ensures longest_content_type { LONGEST_CONTENT_TYPE ≡ 255 }
    ensures largest_durability { LARGEST_DURABILITY ≡ 6 }
    ensures most_metadata { MOST_METADATA ≡ 100 }
    ensures largest_metadata { LARGEST_METADATA ≡ 4096 }
    ensures longest_name { LONGEST_NAME ≡ 16777216 }
    ensures most_phases { MOST_PHASES ≡ 16 }
    ensures most_reducers { MOST_REDUCERS ≡ 1024 }
    ensures most_assets { MOST_ASSETS ≡ 64 }
    ensures longest_command_line { LONGEST_COMMAND_LINE ≡ 65536 }
    ensures most_records { MOST_RECORDS ≡ 4095 }
    ensures longest_stderr { LONGEST_STDERR ≡ 1024 }
    ensures largest_output { LARGEST_OUTPUT ≡ 16777216 }
    ensures last_part { LAST_PART ≡ 9999 }
    ensures largest_body { LARGEST_BODY ≡ 1073741824 }
    ensures largest_joined { LARGEST_JOINED ≡ 1073741824 }
    ensures largest_piece { LARGEST_PIECE ≡ 65536 }
    ensures token_marks { TOKEN_MARKS ≡ 33 ∷ 35 ∷ 36 ∷ 37 ∷ 38 ∷ 39 ∷ 42 ∷ 43 ∷ 45 ∷ 46 ∷ 94 ∷ 95 ∷ 96 ∷ 124 ∷ 126 ∷ [] }
{}
