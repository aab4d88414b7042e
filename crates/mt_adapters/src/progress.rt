//! What a start says on standard error: what it opens, and how far it has read.
use crate::readiness::now;
use mt_disk::FileNo;
use std::io::Eprint;

/// The time between two lines, in milliseconds.
const SILENCE: u64 = 5_000;

/// A GiB, in bytes.
const GIB: u64 = 1 << 30;

/// How far a log was read from its front on, until all of it was, or it changes.
#[derive(Drop)]
pub(crate) struct Progress {
    log: FileNo,
    end: u64,
    read: u64,
    since: u64,
}

// A number of bytes in tenths of a GiB, the last of which is not full.
fn tenths(bytes: u64) -> u64 {
    (bytes % GIB).saturating_mul(10) / GIB
}

impl Progress {
    /// Of no log: nothing is said.
    pub(crate) fn none() -> Progress {
        Progress {
            log: FileNo::One,
            end: 0,
            read: 0,
            since: 0,
        }
    }

    /// Of the longer one of both logs, of which nothing was read yet.
    pub(crate) fn of(one: u64, two: u64) -> Progress {
        let log = if one < two { FileNo::Two } else { FileNo::One };
        Progress {
            log,
            end: one.max(two),
            read: 0,
            since: now(),
        }
    }

    /// Says what is opened.
    pub(crate) fn tell_opening<R: Eprint>(&self, rt: &R, path: &str) {
        let _ = eprintln!(rt; "mantad: opening {path}, {} bytes of log", self.end);
    }

    fn tell_read<R: Eprint>(&self, rt: &R) {
        let (read, end) = (self.read, self.end);
        let _ = eprintln!(rt;
            "mantad: read {}.{} of {}.{} GiB",
            read / GIB,
            tenths(read),
            end / GIB,
            tenths(end)
        );
    }

    /// Takes it that a file was read up to a place, and says how far that is, once each 5 s.
    pub(crate) fn read_to<R: Eprint>(&mut self, rt: &R, file: FileNo, to: u64) {
        if file != self.log || self.read >= self.end || to <= self.read {
            return;
        }
        self.read = to;
        let now = now();
        if to < self.end && now.saturating_sub(self.since) >= SILENCE {
            self.since = now;
            self.tell_read(rt);
        }
    }

    /// Says nothing more: the log is being changed.
    pub(crate) fn stop(&mut self) {
        self.end = 0;
    }
}
