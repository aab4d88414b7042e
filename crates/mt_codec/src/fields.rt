//! The fields of values, read from a cursor and appended to a vector as commands have them: for records that hold values beside commands.
//! A reader answers what `specs/Readers` reads, with what is left; a writer appends what `specs/Spelling` spells, and on an error, which
//! is want of memory, nothing is said of the vector.

pub use crate::numbers::{
    byte, bytes, count, durability, eight, flag, four, index, job, long_piece, moment, reducer,
    short_piece, two,
};
pub use crate::pieces::{body, command_line, content_type, job_name, line_text, metadata, path};
pub use crate::spelled::{Spelled, put_all, times};
pub use crate::values::{
    document, failure, failure_code, fate, line, lines, parts, put_document, put_fate, put_line,
    put_lines, put_parts, put_record, record_of, stderr,
};
pub use crate::writing::{
    put_body, put_command_line, put_content_type, put_durability, put_init, put_long_text,
    put_metadata, put_path, put_place, put_reducer, put_text,
};
