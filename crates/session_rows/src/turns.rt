//! A door that tells nothing, at which links come piece by piece, in an order that rows tell.
use mt_edge::{Door, MemLink, MemSink, MemSource, Next};
use std::alloc::{AllocError, Global};

/// What comes next at a door.
#[derive(Clone, Copy, Debug, PartialEq, Eq)]
pub enum Coming {
    /// The next piece of a link, by its place. It is passed over where the link is over, or is a new one and none is asked for.
    Piece(usize),
    Wake,
    /// The door fails; passed over where no new link is asked for.
    Fault,
}

/// A link that comes in pieces, one a turn.
#[derive(Drop)]
pub struct Client {
    // Those that have not come yet; the first of them stands at the end.
    pieces: Vec<MemSource>,
    // None while its turn is taken.
    sink: Option<MemSink>,
    taken: bool,
    over: bool,
}

impl Client {
    /// A link of these pieces, the first of which stands at the end, and what is to be written to it.
    pub fn new(pieces: Vec<MemSource>, sink: MemSink) -> Client {
        Client {
            pieces,
            sink: Some(sink),
            taken: false,
            over: false,
        }
    }

    // Its next turn, if it may have one.
    fn turn(&mut self, fresh: bool) -> Option<Next<MemLink>> {
        if self.over || (!self.taken && !fresh) {
            return None;
        }
        let source = self.pieces.pop()?;
        let sink = self.sink.take()?;
        let link = MemLink { source, sink };
        if self.taken {
            return Some(Next::Again(link));
        }
        self.taken = true;
        Some(Next::New(link))
    }

    // What was written to it.
    fn said(&self, alloc: Global) -> Result<Vec<u8>, AllocError> {
        match &self.sink {
            Some(sink) => Vec::from_slice(alloc, sink.written()),
            None => Ok(Vec::new(alloc)),
        }
    }

    // Whether it is over once it is given back: no piece is left, or something was left of the last one.
    fn back(&mut self, link: MemLink) -> bool {
        let MemLink { source, sink } = link;
        self.over = self.pieces.is_empty() || !source.left().is_empty();
        self.sink = Some(sink);
        self.over
    }
}

// The links, what is to come, the last of it first, and whose turn it is.
#[derive(Drop)]
struct Plan {
    clients: Vec<Client>,
    order: Vec<Coming>,
    now: usize,
}

impl Plan {
    fn turn(&mut self, place: usize, fresh: bool) -> Option<Next<MemLink>> {
        self.now = place;
        self.clients.get_mut(place)?.turn(fresh)
    }

    // What this comes to, if it isn't passed over.
    fn came(&mut self, coming: Coming, fresh: bool) -> Option<Next<MemLink>> {
        match coming {
            Coming::Piece(place) => self.turn(place, fresh),
            Coming::Wake => Some(Next::Woken),
            Coming::Fault => fresh.then_some(Next::Failed),
        }
    }

    // What comes once the order is at its end: the next piece of the first link that is kept, or a fault.
    fn rest(&mut self, fresh: bool) -> Next<MemLink> {
        if fresh {
            return Next::Failed;
        }
        for place in 0..self.clients.len() {
            if let Some(next) = self.turn(place, false) {
                return next;
            }
        }
        Next::Woken
    }

    fn next(&mut self, fresh: bool) -> Next<MemLink> {
        for _ in 0..self.order.len() {
            if let Some(coming) = self.order.pop() {
                if let Some(next) = self.came(coming, fresh) {
                    return next;
                }
            }
        }
        self.rest(fresh)
    }

    fn back(&mut self, link: MemLink) -> bool {
        match self.clients.get_mut(self.now) {
            Some(client) => client.back(link),
            None => true,
        }
    }
}

/// A door that tells neither its links nor what comes.
#[derive(Drop)]
pub struct TurnDoor {
    plan: Plan,
    taken: u64,
    over: u64,
    kept: u64,
    faults: u64,
}

impl TurnDoor {
    ghost use Rattle.std.specs.Prelude.{◌≡◌};

    /// A door of these links, to which they come in this order; the first to come stands at its end.
    pub fn new(clients: Vec<Client>, order: Vec<Coming>) -> TurnDoor
        ensures { (result.taken ≡ 0) × (result.over ≡ 0) × (result.kept ≡ 0) }
    {
        TurnDoor {
            plan: Plan {
                clients,
                order,
                now: 0,
            },
            taken: 0,
            over: 0,
            kept: 0,
            faults: 0,
        }
    }

    /// What was written to each link, in the order of their numbers.
    pub fn said(&self, alloc: Global) -> Result<Vec<Vec<u8>>, AllocError> {
        let mut said = Vec::new(alloc);
        for client in &self.plan.clients {
            said.push(client.said(alloc)?)?;
        }
        Ok(said)
    }
}

impl Door for TurnDoor {
    ghost use Rattle.std.specs.Prelude.{None};

    type Link = MemLink;

    ghost waiting = { λ d. None };

    ghost given_back = { λ d. None };

    ghost taken = { λ d. d.taken };

    ghost over = { λ d. d.over };

    ghost kept = { λ d. d.kept };

    ghost door_faults = { λ d. d.faults };

    fn next(&mut self, fresh: bool) -> Next<MemLink> {
        match self.plan.next(fresh) {
            Next::New(link) => {
                if let (true, Some(taken)) = (fresh, self.taken.checked_add(1)) {
                    self.taken = taken;
                    return Next::New(link);
                }
                Next::Woken
            }
            Next::Again(link) => match self.kept.checked_sub(1) {
                Some(kept) => {
                    self.kept = kept;
                    Next::Again(link)
                }
                None => Next::Woken,
            },
            Next::Woken => Next::Woken,
            Next::Failed => {
                if fresh {
                    self.faults = self.faults.saturating_add(1);
                    return Next::Failed;
                }
                Next::Woken
            }
        }
    }

    fn done(&mut self, link: MemLink) -> bool {
        if self.plan.back(link) {
            self.over += 1;
            return true;
        }
        self.kept += 1;
        false
    }
}
