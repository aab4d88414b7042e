//! How long a connection is waited for.
use std::time::Duration;

/// How long a door and its links wait for a client.
#[derive(Clone, Copy)]
pub struct Limits {
    /// For the next message, or the first one.
    pub idle: Duration,
    /// For the same once no new link is asked for.
    pub last: Duration,
    /// For a head that has begun.
    pub head: Duration,
    /// For each further byte of a message. A read or a write that takes longer has failed.
    pub message: Duration,
    /// For all that comes and goes in a turn while another client waits, and `mebibyte` more for each MiB of it.
    pub turn: Duration,
    /// As `turn` says.
    pub mebibyte: Duration,
    /// For the client's end of a link that was given back.
    pub end: Duration,
}

impl Limits {
    /// 60 s between two messages, 5 s where no new link is asked for; 30 s for a head; 60 s within a message; 5 s and 1 s for
    /// each 8 MiB while another client waits; 2 s for the end.
    pub fn usual() -> Limits {
        Limits {
            idle: Duration::from_secs(60),
            last: Duration::from_secs(5),
            head: Duration::from_secs(30),
            message: Duration::from_secs(60),
            turn: Duration::from_secs(5),
            mebibyte: Duration::from_millis(125),
            end: Duration::from_secs(2),
        }
    }
}
