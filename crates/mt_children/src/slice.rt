//! How long ended children are taken one after another, until others have their turn.
use std::time::{Clock, Duration, Instant};

/// How long, in milliseconds.
const SLICE: u64 = 20;

/// A time in which children are taken, from the first look for one on.
#[derive(Drop)]
pub(crate) struct Slice {
    since: Option<Instant>,
}

impl Slice {
    /// None has been looked for.
    pub(crate) fn new() -> Slice {
        Slice { since: None }
    }

    /// Whether the time is up. It begins where it had not.
    pub(crate) fn is_over<R: Clock>(&mut self, rt: &R) -> bool {
        match self.since {
            Some(since) => since
                .elapsed(rt)
                .is_ok_and(|passed| passed >= Duration::from_millis(SLICE)),
            None => {
                self.since = Instant::now(rt).ok();
                false
            }
        }
    }

    /// Others have their turn: the time begins anew with the next look.
    pub(crate) fn end(&mut self) {
        self.since = None;
    }
}
