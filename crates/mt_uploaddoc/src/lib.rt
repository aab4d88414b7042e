//! Documents of uploads in parts: what a request asks for as JSON (RFC 8259), and how an upload stands.
//!
//! - `reading`: a request that begins an upload, and one that lists its parts. `fields`: what stands in them.
//! - `writing`: how an upload stands.
//! - `document`: the upload that is asked for, and the limit of a list.
#![tactic(auto)]

mod document;
mod fields;
mod reading;
mod writing;

pub use document::{MOST_PARTS, UploadDocument};
pub use reading::{read_numbers, read_upload};
pub use writing::state_text;
