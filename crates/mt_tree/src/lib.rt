//! What stands at the paths of an account: a tree of directories and objects.
//!
//! - `tree`: the type and its calls; `listing`: pages of a directory, and walks over all rows.
//! - `areas`: the rows of an account; `kept`: those of one area by their keys, which keep the number of their children.
//! - `plain`: listings as scans of a list, by which the tree is tested.
//! - `specs/Answer`, `specs/Walk`: what tests and walks answer; `specs/Keys`, `specs/AreaRows`, `specs/Areas`: how the rows are kept.
#![tactic(auto)]

mod areas;
mod kept;
mod listing;
pub mod plain;
mod tree;

pub use listing::Listed;
pub use mt_types::{
    Area, Bytes, Duplicate, Entry, Object, Path, Refusal, Row, RowList, Sequence, Text,
};
pub use tree::Tree;
