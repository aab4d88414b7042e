//! The descriptors that a door waits for: that at which clients come, those of its links, and those of children.
use crate::limits::Limits;
use crate::places::Places;
use crate::readiness::{millis, now};
use crate::wakes::{CHILDREN, Wakes};
use crate::wire::Wire;
use mio::unix::SourceFd;
use mio::{Events, Interest, Poll, Token};
use std::alloc::Global;
use std::io;
use std::io::ErrorKind;
use std::net::{Net, TcpListener};
use std::os::fd::{AsRawFd, RawFd};
use std::rc::Rc;
use std::time::Duration;

/// What tells that a client comes.
const CLIENTS: Token = Token(usize::MAX);

/// How many changes one wait tells at the most.
const EVENTS: usize = 64;

/// How many clients are taken at a time.
const CLIENTS_AT_ONCE: u32 = 16;

/// How many calls for a client fail in a row, while there is no link, before the door has failed.
const PASSED_OVER: u32 = 64;

/// How many milliseconds pass before the next of them, so that nothing spins where the system has no descriptor left.
const PAUSE: u64 = 100;

/// How many milliseconds pass before it is looked again which links were waited for too long.
const SWEEP: u64 = 500;

/// How many changes are waited for at the most behind a link, until its client ends.
const WAITS: u32 = 65_536;

// A set of descriptors, which tells of a change of one of them once.
#[derive(Drop)]
pub(crate) struct Set {
    alloc: Global,
    listener: TcpListener,
    poll: Poll,
    events: Events,
    // A client may wait.
    has_client: bool,
    // When the next one is looked for, and how many calls for one have failed since the last that came.
    retry: u64,
    failures: u32,
    // When it was looked which links were waited for too long.
    swept: u64,
    // What wakes it beside clients.
    wakes: Rc<Wakes>,
}

// What a descriptor is called in the set.
fn token(number: RawFd) -> Token {
    Token(number.unsigned_abs() as usize)
}

impl Set {
    ghost use Rattle.std.specs.Prelude.{◌≡◌};

    // The set of a listener, which children join by what wakes it.
    pub(crate) fn open<R: Net>(
        alloc: Global,
        rt: &R,
        listener: TcpListener,
        wakes: Rc<Wakes>,
    ) -> io::Result<Set> {
        listener.set_nonblocking(true)?;
        let set = Set {
            alloc,
            poll: Poll::new(rt)?,
            events: Events::with_capacity(alloc, EVENTS)?,
            listener,
            has_client: true,
            retry: 0,
            failures: 0,
            swept: 0,
            wakes,
        };
        set.wakes.join(set.poll.registry().try_clone().ok());
        let number = set.listener.as_raw_fd();
        set.poll
            .registry()
            .register(&mut SourceFd(&number), CLIENTS, Interest::READABLE)?;
        Ok(set)
    }

    // The number of its own descriptor, which can be read where it has something to tell.
    pub(crate) fn number(&self) -> RawFd {
        self.poll.as_raw_fd()
    }

    // Whether a client may wait that was not taken yet.
    pub(crate) fn has_client(&self) -> bool {
        self.has_client
    }

    // Adds a socket.
    pub(crate) fn add(&self, number: RawFd) -> io::Result<()> {
        self.poll
            .registry()
            .register(&mut SourceFd(&number), token(number), Interest::READABLE)
    }

    // Takes the next client. One that can't be set up is closed.
    fn take_client(&mut self, places: &mut Places, now: u64) -> io::Result<()>
        ensures { places.new ≡ places.old }
    {
        let (stream, _) = self.listener.accept()?;
        self.failures = 0;
        if let Ok(wire) = Wire::new(self.alloc, stream, now) {
            if self.add(wire.number()).is_ok() {
                places.admit(wire);
            }
        }
        Ok(())
    }

    // Notes that a call for a client has failed. It is the door's failure where many have, and there is no link.
    fn pass_over(&mut self, error: io::Error, places: &mut Places, now: u64) -> io::Result<()>
        ensures { places.new ≡ places.old }
    {
        let kind = error.kind();
        if kind == ErrorKind::WouldBlock {
            self.has_client = false;
            return Ok(());
        }
        self.failures = self.failures.saturating_add(1);
        if self.failures >= PASSED_OVER && places.is_empty() {
            return Err(error);
        }
        if kind != ErrorKind::ConnectionAborted && kind != ErrorKind::Interrupted {
            places.make_room(now);
            self.retry = now.saturating_add(PAUSE);
        }
        Ok(())
    }

    // Takes clients that wait, as many as there is room for.
    fn take_clients(&mut self, places: &mut Places, now: u64) -> io::Result<()>
        ensures { places.new ≡ places.old }
    {
        for _ in 0..CLIENTS_AT_ONCE {
            if !self.has_client || now < self.retry {
                break;
            }
            if places.is_full() {
                places.make_room(now);
                self.retry = now.saturating_add(PAUSE);
                break;
            }
            if let Err(error) = self.take_client(places, now) {
                self.pass_over(error, places, now)?;
            }
        }
        Ok(())
    }

    // When something is to be done if nothing comes; the last moment of all where that has no end.
    fn next(&self, places: &Places, fresh: bool, now: u64) -> u64 {
        let next = if places.has_queue() {
            now
        } else if fresh && self.has_client {
            self.retry
        } else if places.is_empty() {
            u64::MAX
        } else {
            self.swept.saturating_add(SWEEP)
        };
        next.min(self.wakes.next())
    }

    // How long nothing has to be done if nothing comes; none where that has no end.
    fn most(&self, places: &Places, fresh: bool, now: u64) -> Option<Duration> {
        match self.next(places, fresh, now) {
            u64::MAX => None,
            next => Some(Duration::from_millis(next.saturating_sub(now))),
        }
    }

    // Whether something else than a client is to be looked after.
    pub(crate) fn is_woken(&self) -> bool {
        self.wakes.is_due()
    }

    // Waits for a change, and reads what has come.
    fn wait(&mut self, places: &mut Places, most: Option<Duration>) -> io::Result<()>
        ensures { places.new ≡ places.old }
    {
        self.poll.poll(&mut self.events, most)?;
        let now = now();
        let mut has_client = self.has_client;
        for event in self.events.iter() {
            if event.token() == CLIENTS {
                has_client = true;
            } else if event.token() == CHILDREN {
                self.wakes.wake();
            } else if let Ok(number) = RawFd::try_from(event.token().0) {
                let closed = event.is_read_closed() || event.is_error();
                places.come(number, closed, now);
            }
        }
        self.has_client = has_client;
        Ok(())
    }

    // Waits for the clients' ends, while there is nothing else to do.
    pub(crate) fn settle(&mut self, places: &mut Places, limits: Limits)
        ensures { places.new ≡ places.old }
    {
        let mut time = now();
        let last = time.saturating_add(millis(limits.end));
        for _ in 0..WAITS {
            let end = last.min(self.wakes.next());
            if time >= end || self.has_client || !places.has_ends_alone() {
                break;
            }
            let most = Duration::from_millis(end.saturating_sub(time));
            if self.wait(places, Some(most)).is_err() {
                break;
            }
            time = now();
        }
    }

    // Does what is to be done now, and waits for a change if no link can be served.
    pub(crate) fn look(
        &mut self,
        places: &mut Places,
        fresh: bool,
        limits: Limits,
    ) -> io::Result<()>
        ensures { places.new ≡ places.old }
    {
        let now = now();
        if fresh {
            self.take_clients(places, now)?;
        }
        if self.swept.saturating_add(SWEEP) <= now {
            self.swept = now;
            places.sweep(self.alloc, now, !fresh, limits);
        }
        let most = self.most(places, fresh, now);
        self.wait(places, most)
    }
}
