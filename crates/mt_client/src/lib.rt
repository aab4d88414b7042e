//! The run of a client of the store: words, a link to the store, a source and a sink.
//!
//! - `top`: words are read, and played. `input`: the source is read whole.
//! - `exchange`: a request goes out, and its reply comes in. `pages`: a listing, page by page. `once`: any other words.
//! - `copying`: the body of an object, as it comes.
//! - `specs/Runs`: what is sent, written and answered over the replies that come; `specs/Causes`: why.
#![tactic(auto)]

mod copying;
mod exchange;
mod input;
mod once;
mod pages;
mod top;

pub use mt_script::ClientEnd;
pub use top::{manta, run};
