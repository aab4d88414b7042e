//! The clients that connect to an address.
ghost use Rattle.std.specs.Prelude.{◌≡◌, IfErr, IfOk};
ghost use Rattle.mt_adapters.specs.Turns.{AfterTaking};

use crate::limits::Limits;
use crate::places::{Places, Served};
use crate::readiness::now;
use crate::set::Set;
use crate::tcp_link::TcpLink;
use crate::turn::Turn;
use crate::wakes::Wakes;
use mt_edge::{Door, Next};
use std::alloc::{AllocError, Global};
use std::io;
use std::io::ErrorKind;
use std::marker::Model;
use std::net::{Net, TcpListener, TcpStream};
use std::rc::Rc;

/// Connections to an address, which is bound at the first call of `next`: `HOST:PORT`, where the host is an IPv4 address, an IPv6
/// address in brackets or a name. At port 0 the system picks one. Standard error says which address is bound. A link is given where a whole
/// message of it has come, or nothing more of it will; behind its turn it is kept, if it has not ended. At most 512 links are
/// open. It tells neither the links that wait nor those that were given back, which are ended in an orderly way and closed.
#[derive(Drop)]
pub struct TcpDoor<R> {
    rt: R,
    alloc: Global,
    address: String,
    listener: Option<TcpListener>,
    set: Option<Set>,
    places: Places,
    limits: Limits,
    wakes: Rc<Wakes>,
    taken: u64,
    over: u64,
    faults: u64,
    failure: Option<io::Error>,
}

impl<R> Model for TcpDoor<R> {
    ghost use Rattle.std.specs.Prelude.{◌<◌, IsSome};
    ghost use Rattle.mt_adapters.specs.Device.{DoorState};

    ghost Value = { DoorState };

    ghost view = { λ d. record { taken = d.taken; over = d.over; kept = d.places; faults = d.faults } };

    ghost invariant = { λ d. IsSome d.failure → 0 < d.faults };
}

// Binds an address.
fn bind<R: Net<Listener = TcpListener, Stream = TcpStream> + Eprint>(
    rt: &R,
    address: &str,
) -> io::Result<TcpListener> {
    let listener = TcpListener::bind(rt, address)?;
    let bound = listener.local_addr()?;
    let _ = eprintln!(rt; "mantad: listening at {bound}");
    Ok(listener)
}

// The first link that can be served, which is waited for; none where the door is woken before, or after 2 ^ 64 changes.
fn first_served(
    set: &mut Set,
    places: &mut Places,
    fresh: bool,
    limits: Limits,
) -> io::Result<Option<Served>>
    ensures taken { IfOk result (λ served. AfterTaking fresh places.old served places.new) }
    ensures err { IfErr result (λ e. places.new ≡ places.old) }
{
    for _ in 0..u64::MAX {
        if places.has_to_look() {
            set.look(places, fresh, limits)?;
        }
        if let Some(served) = places.take(fresh) {
            return Ok(Some(served));
        }
        if set.is_woken() {
            break;
        }
    }
    Ok(None)
}

impl<R> TcpDoor<R> {
    ghost use Rattle.std.specs.Prelude.{◌≡◌, ◌<◌, IfOk, IsSome};
    ghost use Rattle.mt_edge.specs.declared.next.Next.{Next};
    ghost use Rattle.std.specs.Prelude.{true};
    ghost use Rattle.mt_adapters.specs.Device.{AfterNext, IsFirst, first_door, first_link, one_more};

    // A door of an address, or else of a listener that is bound.
    fn of(
        alloc: Global,
        rt: R,
        address: &str,
        listener: Option<TcpListener>,
    ) -> Result<TcpDoor<R>, AllocError>
    where
        R: Drop,
        ensures { IfOk result (λ d. d ≡ first_door) }
    {
        Ok(TcpDoor {
            rt,
            alloc,
            address: String::from_str(alloc, address)?,
            listener,
            set: None,
            places: Places::new(alloc)?,
            limits: Limits::usual(),
            wakes: Rc::new(alloc, Wakes::new())?,
            taken: 0,
            over: 0,
            faults: 0,
            failure: None,
        })
    }

    /// A door of an address, which has given no link yet. It makes no call of the system.
    pub fn new(alloc: Global, rt: R, address: &str) -> Result<TcpDoor<R>, AllocError>
    where
        R: Drop,
        ensures { IfOk result (λ d. d ≡ first_door) }
    {
        TcpDoor::of(alloc, rt, address, None)
    }

    /// A door of a listener that is bound. It makes no call of the system.
    pub fn over(alloc: Global, rt: R, listener: TcpListener) -> Result<TcpDoor<R>, AllocError>
    where
        R: Drop,
        ensures { IfOk result (λ d. d ≡ first_door) }
    {
        TcpDoor::of(alloc, rt, "", Some(listener))
    }

    /// The same door, whose links wait so long.
    pub fn within(mut self, limits: Limits) -> TcpDoor<R>
        ensures { result ≡ self }
    {
        self.limits = limits;
        self
    }

    /// The same door, which wakes at its first call, if no link can be served then, and whenever these ask for it.
    pub fn waking(mut self, wakes: Rc<Wakes>) -> TcpDoor<R>
        ensures { result ≡ self }
    {
        wakes.wake();
        self.wakes = wakes;
        self
    }

    /// How often a call has failed.
    pub fn faults(&self) -> u64
        ensures { result ≡ self.now.faults }
    {
        self.faults
    }

    /// The first call that failed, and why.
    pub fn failure(&self) -> Option<&io::Error>
        ensures { IsSome result → 0 < self.now.faults }
    {
        self.failure.as_ref()
    }

    // Counts a call that failed, and keeps the first.
    fn failed(&mut self, error: io::Error) -> Next<TcpLink>
        ensures none { result ≡ Next.Failed }
        ensures counted { self.new ≡ record self.old { faults = one_more self.old.faults } }
    {
        self.faults = self.faults.saturating_add(1);
        if self.failure.is_none() {
            self.failure = Some(error);
        }
        Next::Failed
    }

    // What is answered where no change can be waited for: a failure where a new link was asked for, or else a link that is kept,
    // as one that was waited for too long.
    fn stuck(&mut self, fresh: bool, error: io::Error) -> Next<TcpLink>
        ensures after { AfterNext fresh self.old result self.new }
        ensures first { IsFirst result }
    {
        if fresh {
            return self.failed(error);
        }
        match self.places.take_any(now()) {
            Some(link) => Next::Again(link),
            None => Next::Woken,
        }
    }

    // Counts a new link, and gives it.
    fn first_given(&mut self, link: TcpLink) -> Next<TcpLink>
        requires { link ≡ first_link }
        ensures after { AfterNext true self.old result self.new }
        ensures first { IsFirst result }
    {
        match self.taken.checked_add(1) {
            Some(taken) => {
                self.taken = taken;
                Next::New(link)
            }
            None => self.failed(io::Error::from(ErrorKind::QuotaExceeded)),
        }
    }
}

impl<R: Net<Listener = TcpListener, Stream = TcpStream> + Eprint> TcpDoor<R> {
    // The set of the listener, which is bound where this is the first call.
    fn opened(&mut self) -> io::Result<Set>
        ensures { self.new ≡ self.old }
    {
        if let Some(set) = self.set.take() {
            return Ok(set);
        }
        let listener = match self.listener.take() {
            Some(listener) => listener,
            None => bind(&self.rt, self.address.as_str())?,
        };
        Set::open(self.alloc, &self.rt, listener, self.wakes.clone()?)
    }
}

impl<R: Net<Listener = TcpListener, Stream = TcpStream> + Eprint> Door for TcpDoor<R> {
    ghost use Rattle.std.specs.Prelude.{◌≡◌, ◌+◌, ◌<◌, None, true, false};
    ghost use Rattle.mt_edge.specs.declared.next.Next.{Next};
    ghost use Rattle.mt_adapters.specs.Device.{AfterNext, IsFirst, after_done};

    type Link = TcpLink;

    ghost waiting = { λ d. None };

    ghost given_back = { λ d. None };

    ghost taken = { λ d. d.taken };

    ghost over = { λ d. d.over };

    ghost kept = { λ d. d.kept };

    ghost door_faults = { λ d. d.faults };

    fn next(&mut self, fresh: bool) -> Next<TcpLink>
        requires back { self.old.over + self.old.kept ≡ self.old.taken }
        requires some { fresh ≡ false → 0 < self.old.kept }
        ensures first { IsFirst result }
        ensures after { AfterNext fresh self.old result self.new }
    {
        if fresh && self.taken == u64::MAX {
            return self.failed(io::Error::from(ErrorKind::QuotaExceeded));
        }
        if !fresh {
            self.places.forget_fresh();
        }
        let mut set = match self.opened() {
            Ok(set) => set,
            Err(error) => return self.stuck(fresh, error),
        };
        let served = first_served(&mut set, &mut self.places, fresh, self.limits);
        let turn = Turn::new(self.places.has_queue() || fresh && set.has_client());
        let number = set.number();
        self.set = Some(set);
        match served {
            Ok(Some(Served::Fresh(wire))) => {
                self.first_given(TcpLink::new(wire, turn, number, self.limits))
            }
            Ok(Some(Served::Kept(link))) => Next::Again(link.again(turn)),
            Ok(None) => Next::Woken,
            Err(error) => self.stuck(fresh, error),
        }
    }

    fn done(&mut self, mut link: TcpLink) -> bool
        requires { self.old.over + self.old.kept < self.old.taken }
        ensures after { self.new ≡ after_done self.old result }
    {
        if link.has_left_set() {
            if let Some(set) = &self.set {
                let _ = set.add(link.number());
            }
        }
        let now = now();
        if link.is_paused() {
            if self.places.keep(link, now) {
                return false;
            }
        } else {
            self.places.close(link.into_wire(), now);
            if let Some(set) = &mut self.set {
                set.settle(&mut self.places, self.limits);
            }
        }
        self.over += 1;
        true
    }
}
