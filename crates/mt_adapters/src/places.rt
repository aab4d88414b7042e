//! The links of a door that are not in their turn: those that have not been given yet, those that are kept, and those whose
//! client's end is waited for.
use crate::limits::Limits;
use crate::readiness::millis;
use crate::tcp_link::TcpLink;
use crate::turn::Turn;
use crate::wire::Wire;
use std::alloc::{AllocError, Global};
use std::collections::{BTreeMap, VecDeque};
use std::marker::Model;
use std::os::fd::RawFd;

/// How many links there are at the most.
const MOST_LINKS: usize = 512;

/// For how many milliseconds a link has had nothing to say that is let go where there is room for no other.
const IDLE: u64 = 1000;

// Links by the number of their socket.
#[derive(Drop)]
pub(crate) struct Places {
    fresh: BTreeMap<RawFd, Wire>,
    kept: BTreeMap<RawFd, TcpLink>,
    closing: BTreeMap<RawFd, Wire>,
    // Those that can be served, the first that could be first.
    queue: VecDeque<RawFd>,
    // One was kept that stands in the queue again.
    has_rejoined: bool,
}

// A link that can be served.
#[derive(Drop)]
pub(crate) enum Served {
    // It has not been given yet.
    Fresh(Wire),
    // It was kept.
    Kept(TcpLink),
}

impl Model for Places {
    ghost use Rattle.std.specs.Prelude.{ℕ};
    ghost use Rattle.std.specs.BTreeMap.{btree_map_len};

    ghost Value = { ℕ };

    // How many are kept.
    ghost view = { λ p. btree_map_len p.kept };
}

impl Places {
    ghost use Rattle.std.specs.Prelude.{◌≡◌, ◌+◌, IfOk, IfSome, IfNone};
    ghost use Rattle.mt_edge.specs.Doors.{as_count};
    ghost use Rattle.mt_adapters.specs.Turns.{AfterTaking};

    pub(crate) fn new(alloc: Global) -> Result<Places, AllocError>
        ensures { IfOk result (λ p. p ≡ 0) }
    {
        Ok(Places {
            fresh: BTreeMap::new(alloc),
            kept: BTreeMap::new(alloc),
            closing: BTreeMap::new(alloc),
            queue: VecDeque::with_capacity(alloc, MOST_LINKS)?,
            has_rejoined: false,
        })
    }

    fn len(&self) -> usize {
        self.fresh
            .len()
            .saturating_add(self.kept.len())
            .saturating_add(self.closing.len())
    }

    pub(crate) fn is_empty(&self) -> bool {
        self.len() == 0
    }

    pub(crate) fn is_full(&self) -> bool {
        self.len() >= MOST_LINKS
    }

    // Whether the ends of clients are awaited, and nothing else is to be done.
    pub(crate) fn has_ends_alone(&self) -> bool {
        !self.closing.is_empty() && self.kept.is_empty() && self.queue.is_empty()
    }

    // Whether one can be served.
    pub(crate) fn has_queue(&self) -> bool {
        !self.queue.is_empty()
    }

    // Whether nothing can be served, or one that was just served could be again, so that the others are to be looked at first.
    pub(crate) fn has_to_look(&mut self) -> bool
        ensures { self.new ≡ self.old }
    {
        let has_to_look = self.has_rejoined || self.queue.is_empty();
        self.has_rejoined = false;
        has_to_look
    }

    // Takes a link that has just come. With no memory it is closed.
    pub(crate) fn admit(&mut self, wire: Wire)
        ensures { self.new ≡ self.old }
    {
        let _ = self.fresh.insert(wire.number(), wire);
    }

    // Lets those go that have not been given yet.
    pub(crate) fn forget_fresh(&mut self)
        ensures { self.new ≡ self.old }
    {
        self.fresh.clear();
    }

    // Puts a link at the end of the queue.
    fn enqueue(&mut self, number: RawFd)
        ensures { self.new ≡ self.old }
    {
        // There is room for each.
        let _ = self.queue.push_back(number);
    }

    // Reads what has come for a link; `closed` where its client sends no more than that.
    pub(crate) fn come(&mut self, number: RawFd, closed: bool, now: u64)
        ensures { self.new ≡ self.old }
    {
        if let Some(link) = self.kept.get_mut(&number) {
            if link.come(closed, now) {
                self.enqueue(number);
            }
        } else if let Some(wire) = self.fresh.get_mut(&number) {
            if wire.come(closed, now) {
                self.enqueue(number);
            }
        } else if let Some(wire) = self.closing.get_mut(&number) {
            if wire.drop_rest() {
                self.closing.remove(&number);
            }
        }
    }

    // The first link that can be served; one that has not been given yet only where that is asked for.
    pub(crate) fn take(&mut self, fresh: bool) -> Option<Served>
        ensures { AfterTaking fresh self.old result self.new }
    {
        for _ in 0..self.queue.len() {
            let number = self.queue.pop_front()?;
            if let Some(link) = self.kept.remove(&number) {
                return Some(Served::Kept(link));
            }
            if fresh {
                if let Some(wire) = self.fresh.remove(&number) {
                    return Some(Served::Fresh(wire));
                }
            }
        }
        None
    }

    // Takes any link that is kept, as one that was waited for too long.
    pub(crate) fn take_any(&mut self, now: u64) -> Option<TcpLink>
        ensures some { IfSome result (λ link. self.old ≡ self.new + 1) }
        ensures none { IfNone result (self.new ≡ self.old) }
    {
        let (_, mut link) = self.kept.pop_first()?;
        link.be_late(now);
        Some(link)
    }

    // Keeps a link behind its turn, and tells whether it could.
    pub(crate) fn keep(&mut self, mut link: TcpLink, now: u64) -> bool
        ensures { self.new ≡ self.old + as_count result }
    {
        let joins = link.rest(now);
        let number = link.number();
        match self.kept.insert(number, link) {
            Ok(None) => {
                if joins {
                    self.has_rejoined = true;
                    self.enqueue(number);
                }
                true
            }
            // With no memory it is closed. No other has its number.
            Ok(Some(_)) | Err(_) => false,
        }
    }

    // Ends a link in an orderly way: what its client still sends is read and dropped, for a time. If it were closed while bytes of
    // the client are unread, the system would reset it, and the client could lose the reply that was just written.
    pub(crate) fn close(&mut self, mut wire: Wire, now: u64)
        ensures { self.new ≡ self.old }
    {
        if wire.end(now) && !wire.drop_rest() {
            let _ = self.closing.insert(wire.number(), wire);
        }
    }

    // The numbers of all links.
    fn numbers(&self, alloc: Global) -> Result<Vec<RawFd>, AllocError> {
        let mut numbers = Vec::with_capacity(alloc, self.len())?;
        for number in self.fresh.keys() {
            numbers.push(*number)?;
        }
        for number in self.kept.keys() {
            numbers.push(*number)?;
        }
        for number in self.closing.keys() {
            numbers.push(*number)?;
        }
        Ok(numbers)
    }

    // Looks whether one link was waited for too long.
    fn look(&mut self, number: RawFd, now: u64, last: bool, limits: Limits)
        ensures { self.new ≡ self.old }
    {
        if let Some(link) = self.kept.get_mut(&number) {
            if link.look(now, last) {
                self.enqueue(number);
            }
        } else if let Some(wire) = self.fresh.get_mut(&number) {
            if wire.look(now, last, limits) {
                self.enqueue(number);
            }
        } else if let Some(wire) = self.closing.get_mut(&number) {
            if wire.since.saturating_add(millis(limits.end)) <= now {
                self.closing.remove(&number);
            }
        }
    }

    // Looks which links were waited for too long. With no memory it is done another time.
    pub(crate) fn sweep(&mut self, alloc: Global, now: u64, last: bool, limits: Limits)
        ensures { self.new ≡ self.old }
    {
        if let Ok(numbers) = self.numbers(alloc) {
            for number in numbers.iter() {
                self.look(*number, now, last, limits);
            }
        }
    }

    // The link that has had nothing to say for longest, if that is long.
    fn idlest(&self, now: u64) -> Option<RawFd> {
        let mut then = now.saturating_sub(IDLE);
        let mut idlest = None;
        for (number, link) in self.kept.iter() {
            if link.wire().idles_since(then) {
                then = link.wire().since;
                idlest = Some(*number);
            }
        }
        for (number, wire) in self.fresh.iter() {
            if wire.idles_since(then) {
                then = wire.since;
                idlest = Some(*number);
            }
        }
        idlest
    }

    // Lets the link go that has had nothing to say for longest, if that is long.
    pub(crate) fn make_room(&mut self, now: u64)
        ensures { self.new ≡ self.old }
    {
        if let Some(number) = self.idlest(now) {
            if let Some(link) = self.kept.get_mut(&number) {
                if link.be_late(now) {
                    self.enqueue(number);
                }
            } else if let Some(wire) = self.fresh.get_mut(&number) {
                if wire.be_late(now) {
                    self.enqueue(number);
                }
            }
        }
    }
}
