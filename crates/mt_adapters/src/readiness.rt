//! Waiting until a descriptor is ready (`poll`), and the time that passes.
use libc::net::{POLLHUP, POLLIN, POLLOUT, poll};
use libc::types::{pollfd, timespec};
use libc::{CLOCK_MONOTONIC, clock_gettime};
use std::os::fd::RawFd;
use std::time::Duration;

/// How often a call that a signal cut short is tried.
const TRIES: u32 = 64;

/// The time of a wait that has no end, in milliseconds.
const FOREVER: i32 = -1;

/// What a descriptor is waited for.
#[derive(Clone, Copy, PartialEq, Eq)]
pub(crate) enum Readiness {
    /// A read would not wait.
    ToRead,
    /// A write would not wait.
    ToWrite,
}

// What is asked of a descriptor.
fn asked(descriptor: RawFd, readiness: Readiness) -> pollfd {
    let events = match readiness {
        Readiness::ToRead => POLLIN,
        Readiness::ToWrite => POLLOUT,
    };
    pollfd {
        fd: descriptor,
        events,
        revents: 0,
    }
}

// Whether one of them is ready within a time, or can't be waited for.
fn is_ready(asked: &mut [pollfd], millis: i32) -> bool {
    for _ in 0..TRIES {
        let ready = poll(asked, millis);
        if ready >= 0 {
            return ready > 0;
        }
    }
    true
}

// A time in milliseconds, at most the 24 days that a wait may have.
fn wait_of(millis: u64) -> i32 {
    i32::try_from(millis).unwrap_or(i32::MAX)
}

/// A time in milliseconds.
pub(crate) fn millis(time: Duration) -> u64 {
    u64::try_from(time.as_millis()).unwrap_or(u64::MAX)
}

/// The milliseconds that have passed since a moment that the system picked.
pub(crate) fn now() -> u64 {
    let mut time = timespec {
        tv_sec: 0,
        tv_nsec: 0,
    };
    if clock_gettime(CLOCK_MONOTONIC, &mut time) != 0 {
        return 0;
    }
    let seconds = u64::try_from(time.tv_sec).unwrap_or(0);
    let nanos = u64::try_from(time.tv_nsec).unwrap_or(0);
    seconds
        .saturating_mul(1000)
        .saturating_add(nanos / 1_000_000)
}

/// Whether a descriptor is ready within so many milliseconds.
pub(crate) fn is_ready_within(descriptor: RawFd, readiness: Readiness, millis: u64) -> bool {
    is_ready(&mut [asked(descriptor, readiness)], wait_of(millis))
}

/// Whether a descriptor is ready within so many milliseconds, or else until another can be read.
pub(crate) fn is_ready_before(
    descriptor: RawFd,
    readiness: Readiness,
    other: RawFd,
    millis: u64,
) -> (bool, bool) {
    let mut both = [
        asked(descriptor, readiness),
        asked(other, Readiness::ToRead),
    ];
    is_ready(&mut both, wait_of(millis));
    (both[0].revents != 0, both[1].revents != 0)
}

/// Whether nobody has the other end of a pipe any more.
pub(crate) fn is_closed(descriptor: RawFd) -> bool {
    let mut asked = [asked(descriptor, Readiness::ToRead)];
    is_ready(&mut asked, 0) && asked[0].revents & POLLHUP != 0
}

/// Waits until a read would not wait.
pub(crate) fn await_readable(descriptor: RawFd) {
    is_ready(&mut [asked(descriptor, Readiness::ToRead)], FOREVER);
}

/// Waits until a write would not wait.
pub(crate) fn await_writable(descriptor: RawFd) {
    is_ready(&mut [asked(descriptor, Readiness::ToWrite)], FOREVER);
}
