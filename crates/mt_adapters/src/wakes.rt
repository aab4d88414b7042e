//! What wakes a door beside its clients: children that end, and moments.
use crate::readiness::{is_closed, millis, now};
use mio::unix::SourceFd;
use mio::{Interest, Registry, Token};
use std::cell::{Cell, RefCell};
use std::os::fd::RawFd;
use std::time::Duration;

/// What tells in a door's set that a child has ended.
pub(crate) const CHILDREN: Token = Token(usize::MAX - 1);

/// No moment.
const NEVER: u64 = u64::MAX;

/// How many milliseconds pass before it is looked again for children whose ends wake nobody.
const LOOK: u64 = 100;

/// What wakes a door beside its clients. Who starts children and their door share it: he says what he waits for, and the door
/// wakes then.
#[derive(Drop)]
pub struct Wakes {
    // The door's set, once there is one.
    set: RefCell<Option<Registry>>,
    // The next moment to wake at.
    next: Cell<u64>,
    // The ends of some children wake nobody.
    is_blind: Cell<bool>,
}

impl Wakes {
    /// Nothing is waited for.
    pub fn new() -> Wakes {
        Wakes {
            set: RefCell::new(None),
            next: Cell::new(NEVER),
            is_blind: Cell::new(false),
        }
    }

    // Wakes at a moment, if not before.
    fn wake_at(&self, moment: u64) {
        self.next.set(self.next.get().min(moment));
    }

    /// Asks to be woken within a time.
    pub fn wake_within(&self, time: Duration) {
        self.wake_at(now().saturating_add(millis(time)));
    }

    /// Asks to be woken when a child ends. `output` is what is read of its first process, which alone may write there: so the system
    /// closes it when that process ends.
    pub fn watch(&self, output: RawFd) {
        let is_watched = match self.set.try_borrow() {
            Ok(set) => match &*set {
                Some(set) => set
                    .register(&mut SourceFd(&output), CHILDREN, Interest::READABLE)
                    .is_ok(),
                None => false,
            },
            Err(_) => false,
        };
        if !is_watched {
            self.is_blind.set(true);
        }
    }

    /// Asks to be woken for children of which none has ended; `is_ending` where the output of one is closed, so that it will have
    /// ended in a moment.
    pub fn look_again(&self, is_ending: bool) {
        if is_ending {
            self.wake_at(now().saturating_add(1));
        } else if self.is_blind.get() {
            self.wake_at(now().saturating_add(LOOK));
        }
    }

    /// Whether an output that is read can be written by nobody any more.
    pub fn is_closed(output: RawFd) -> bool {
        is_closed(output)
    }

    // Takes the set of the door.
    pub(crate) fn join(&self, set: Option<Registry>) {
        let _ = self.set.try_replace(set);
    }

    // Wakes now.
    pub(crate) fn wake(&self) {
        self.next.set(0);
    }

    // The next moment to wake at, which may be past; the last of all where there is none.
    pub(crate) fn next(&self) -> u64 {
        self.next.get()
    }

    // Whether it is time to wake. Then nothing is waited for any more.
    pub(crate) fn is_due(&self) -> bool {
        let is_due = self.next.get() <= now();
        if is_due {
            self.next.set(NEVER);
        }
        is_due
    }
}
