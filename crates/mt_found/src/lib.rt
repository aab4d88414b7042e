//! A search of a client finds each row below its path, once, in the order of rows.
//!
//! - `laws`: what a search over the pages of rows writes.
//! - `specs/Found`: the pages of a search, and the rows below a path.
#![tactic(auto)]

mod laws;

pub use laws::{
    find_ends, find_lists_a_front, find_lists_all, find_on_a_link, find_over_the_store,
    lawful_is_searchable,
};
