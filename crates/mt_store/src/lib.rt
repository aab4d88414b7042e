//! Whether the store takes a put, a link, a delete or a read: the refusals of the tree, and then what the
//! conditions of the request say of the object that stands there. No call takes memory or changes anything.
//!
//! - `writes`: puts, links and deletes; `reads`: reads.
//! - `error`: why a request is refused; `laws`: decisions hang on no body.
//! - `specs/Decisions`: what is decided, over the rows of the tree and the conditions alone.
#![tactic(auto)]

mod error;
pub mod laws;
mod reads;
mod writes;

pub use error::StoreError;
pub use mt_cond::Conditions;
pub use mt_tree::Tree;
pub use mt_types::{Object, Path, Refusal};
pub use reads::{Found, read_object};
pub use writes::{may_delete, may_link, may_put};
