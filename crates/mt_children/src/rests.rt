//! How long no task is started once a start has failed.
use std::time::{Clock, Duration, Instant};

/// The first rest, in seconds; each further one is twice as long.
const FIRST_REST: u64 = 1;

/// The longest rest, in seconds.
const LAST_REST: u64 = 30;

/// The rest behind the last starts, all of which failed.
#[derive(Drop)]
pub(crate) struct Rests {
    time: Duration,
    since: Option<Instant>,
}

impl Rests {
    /// No start has failed.
    pub(crate) fn new() -> Rests {
        Rests {
            time: Duration::ZERO,
            since: None,
        }
    }

    /// How long the rest lasts on, if it isn't over.
    pub(crate) fn left<R: Clock>(&self, rt: &R) -> Option<Duration> {
        let passed = self.since?.elapsed(rt).ok()?;
        if passed < self.time {
            return Some(self.time.saturating_sub(passed));
        }
        None
    }

    /// A start has failed: a rest begins, twice as long as the last.
    pub(crate) fn begin<R: Clock>(&mut self, rt: &R) {
        let twice = self.time.saturating_add(self.time);
        self.time = twice
            .max(Duration::from_secs(FIRST_REST))
            .min(Duration::from_secs(LAST_REST));
        self.since = Instant::now(rt).ok();
    }

    /// A start was made: there is no rest.
    pub(crate) fn end(&mut self) {
        self.time = Duration::ZERO;
        self.since = None;
    }
}
