//! The texts of identifiers, digests and moments, written and read exactly. No call takes memory.
//!
//! - `identifiers`: version 8 UUIDs (RFC 9562) that hold a kind and a number.
//! - `digests`: MD5 digests (RFC 1321), whole or in pieces, and their base64 text (RFC 4648).
//! - `dates`: the date of a moment, as HTTP's fields (RFC 9110) and as ISO 8601 write it.
//! - `laws`: what is written is read again, and a day has one date.
#![tactic(auto)]

mod dates;
mod digests;
mod identifiers;
pub mod laws;

pub use dates::{http_date, iso_time, read_http_date};
pub use digests::{md5_of, md5_read, md5_text};
pub use identifiers::{least_number, uuid_number, uuid_text};
pub use md5::{Digest, Md5};
pub use mt_base::LAST_MOMENT;
