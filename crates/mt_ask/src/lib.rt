//! The words of a client, and the requests that they ask for.
//!
//! - `words`: what the words of a command line ask for. `ask`: the value that they are read into.
//! - `request`: the head of a request. `target`: the path and the query in its first line. `escapes`: bytes as they stand there.
//! - `laws`: what words ask for is what the store is asked for.
#![tactic(auto)]

mod ask;
mod escapes;
pub mod laws;
mod request;
mod target;
mod words;

pub use ask::{Ask, PageAsk, Words};
pub use mt_base::{Bytes, Text};
pub use mt_path::Path;
pub use request::request_head;
pub use words::{read_words, url_of};
