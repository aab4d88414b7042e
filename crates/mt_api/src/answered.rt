//! What becomes of a request.
use mt_http::Ending;
use mt_types::{Body, Reply};

/// What became of a request.
#[derive(Debug, PartialEq, Eq, Drop)]
pub enum Answered {
    /// This is its reply. Its body was read to its end, and its command, if it has one, is on the disk.
    Replied(Reply<Body>),
    /// Its body ended so, and not with its last byte. The history is that of before.
    Unfinished(Ending),
    /// The source has failed. The history is that of before.
    SourceFault,
    /// The disk has failed, and the engine is closed. Its disk has the history of before, or that with the request's command.
    Disk,
    /// Out of memory. The history is that of before; the engine is closed where a command was to be added.
    Memory,
}
