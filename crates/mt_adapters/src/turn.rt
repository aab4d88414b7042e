//! One turn of a link: what it has had of it, and how long it may hold the others.
use crate::limits::Limits;
use crate::readiness::{Readiness, is_ready_before, is_ready_within, millis, now};
use std::os::fd::RawFd;

/// How many messages are answered in one turn.
pub(crate) const MESSAGES: u32 = 16;

/// How often one wait looks again.
const LOOKS: u32 = 64;

// A turn of a link.
#[derive(Clone, Copy)]
pub(crate) struct Turn {
    // How many messages have begun.
    pub(crate) messages: u32,
    // Nothing more is to be answered for now, and the link waits for its next turn.
    pub(crate) paused: bool,
    // Whether another link waits for the end of it.
    is_waited_for: bool,
    // Bytes that came or went since then, and for how many milliseconds the link was waited for.
    moved: u64,
    held: u64,
}

impl Turn {
    // A turn that begins; `is_waited_for` where another link waits for the end of it.
    pub(crate) fn new(is_waited_for: bool) -> Turn {
        Turn {
            messages: 0,
            paused: false,
            is_waited_for,
            moved: 0,
            held: 0,
        }
    }

    // Notes that so many bytes came or went.
    pub(crate) fn note(&mut self, count: usize) {
        if self.is_waited_for {
            self.moved = self.moved.saturating_add(count as u64);
        }
    }

    // How many milliseconds others may still be held.
    fn left(&self, limits: Limits) -> u64 {
        let more = (self.moved >> 20).saturating_mul(millis(limits.mebibyte));
        millis(limits.turn)
            .saturating_add(more)
            .saturating_sub(self.held)
    }

    // Waits until its socket is ready: as long as a message is waited for, and while another waits no longer than others may be
    // held. Another waits where the turn began so, or from when the set of descriptors can be read.
    pub(crate) fn wait(
        &mut self,
        socket: RawFd,
        readiness: Readiness,
        set: RawFd,
        limits: Limits,
    ) -> bool {
        let began = now();
        let end = began.saturating_add(millis(limits.message));
        let mut last = began;
        for _ in 0..LOOKS {
            let most = end.saturating_sub(last);
            let holds = self.is_waited_for;
            let ready = if holds {
                is_ready_within(socket, readiness, most.min(self.left(limits)))
            } else {
                let (ready, other) = is_ready_before(socket, readiness, set, most);
                // What comes at the socket itself can be read in the set too.
                self.is_waited_for = other && !ready;
                ready
            };
            let time = now();
            if holds {
                self.held = self.held.saturating_add(time.saturating_sub(last));
            }
            last = time;
            if ready {
                return true;
            }
            if last >= end || self.is_waited_for && self.left(limits) == 0 {
                return false;
            }
        }
        false
    }
}
