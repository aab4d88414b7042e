//! What a request's conditions say of an object, and which bytes of it a range selects (RFC 9110,
//! sections 13 and 14). Judging takes no memory.
//!
//! - `conditions`: the four fields, as they are read and as they are judged; `tags`: their lists of tags.
//! - `range`: a byte range, as it is read and what it selects.
//! - `laws`: how a tag is written, that a range of an object has one answer, and that judgements hang on no body.
#![tactic(auto)]

mod conditions;
pub mod laws;
mod range;
mod tags;

pub use conditions::{Conditions, Judged, judge};
pub use range::{Range, Ranged, range_of};
pub use tags::{Tag, TagList};
