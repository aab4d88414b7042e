//! The links that wait at a door.
ghost use Rattle.std.specs.Prelude.{◌≡◌, [], IfOk};

use crate::store::Ends;
use crate::turns::{Client, Coming, TurnDoor};
use mt_edge::{MemDoor, MemLink, MemSource};
use mt_rows::{Row, Stop};
use std::alloc::{AllocError, Global};
use std::mem;

/// The links of the next serve, each in its pieces, the order in which these come, and the calls of its door that fail.
#[derive(Drop)]
pub struct Links {
    clients: Vec<Vec<Ends>>,
    // Of the link that comes behind them.
    pieces: Vec<Ends>,
    order: Vec<Coming>,
    pub calls_fail: Vec<u64>,
}

// What a word says comes next: a link by its number, from 1 on, a waking or a fault.
fn coming_of(row: &Row, place: usize) -> Result<Coming, Stop> {
    match row.text(place)? {
        "wake" => Ok(Coming::Wake),
        "fault" => Ok(Coming::Fault),
        _ => match row.number(place)?.checked_sub(1) {
            Some(place) => Ok(Coming::Piece(place as usize)),
            None => Err(Stop::NoSuchRow),
        },
    }
}

// The sources of these pieces, the last one first.
fn sources_of(alloc: Global, pieces: &[Ends]) -> Result<Vec<MemSource>, AllocError> {
    let mut sources = Vec::new(alloc);
    for ends in pieces {
        sources.push(ends.source(alloc)?)?;
    }
    sources.reverse();
    Ok(sources)
}

// A link of these pieces.
fn client_of(alloc: Global, pieces: &[Ends]) -> Result<Client, Stop> {
    let Some(last) = pieces.last() else {
        return Err(Stop::NoSuchRow);
    };
    let sink = last.sink(alloc)?;
    Ok(Client::new(sources_of(alloc, pieces)?, sink))
}

// A link that has one piece.
fn link_of(alloc: Global, pieces: &[Ends]) -> Result<MemLink, Stop> {
    let [ends] = pieces else {
        return Err(Stop::NoSuchRow);
    };
    let source = ends.source(alloc)?;
    let sink = ends.sink(alloc)?;
    Ok(MemLink { source, sink })
}

impl Links {
    /// No link.
    pub fn new(alloc: Global) -> Links {
        Links {
            clients: Vec::new(alloc),
            pieces: Vec::new(alloc),
            order: Vec::new(alloc),
            calls_fail: Vec::new(alloc),
        }
    }

    /// One more piece of the link that comes behind the others.
    pub fn add_piece(&mut self, alloc: Global, ends: &Ends) -> Result<(), AllocError> {
        self.pieces.push(ends.copy(alloc)?)?;
        Ok(())
    }

    /// The last piece of that link, which waits behind the others.
    pub fn add(&mut self, alloc: Global, ends: &Ends) -> Result<(), AllocError> {
        self.add_piece(alloc, ends)?;
        let pieces = mem::replace(&mut self.pieces, Vec::new(alloc));
        self.clients.push(pieces)?;
        Ok(())
    }

    /// The order in which their pieces come, so that their door tells nothing.
    pub fn set_order(&mut self, alloc: Global, row: &Row) -> Result<(), Stop> {
        let mut order = Vec::new(alloc);
        for place in 1..row.len() {
            order.push(coming_of(row, place)?)?;
        }
        order.reverse();
        self.order = order;
        Ok(())
    }

    /// Their door tells nothing.
    pub fn have_order(&self) -> bool {
        !self.order.is_empty()
    }

    // The links, as they wait. Each has one piece.
    fn waiting(&self, alloc: Global) -> Result<Vec<MemLink>, Stop> {
        let mut links = Vec::new(alloc);
        for pieces in &self.clients {
            links.push(link_of(alloc, pieces.as_slice())?)?;
        }
        Ok(links)
    }

    // A door at which they wait, of which no call fails.
    fn door(&self, alloc: Global) -> Result<MemDoor, Stop>
        ensures { IfOk result (λ d. (d.given_back ≡ []) × (d.taken ≡ 0)) }
    {
        Ok(MemDoor::new(alloc, self.waiting(alloc)?)?)
    }

    /// A door that tells them.
    pub fn told(&self, alloc: Global) -> Result<MemDoor, Stop>
        ensures { IfOk result (λ d. (d.given_back ≡ []) × (d.taken ≡ 0)) }
    {
        let failing = Vec::from_slice(alloc, &self.calls_fail)?;
        let door = self.door(alloc)?;
        Ok(door.failing(failing))
    }

    // The links, as they come piece by piece.
    fn coming(&self, alloc: Global) -> Result<Vec<Client>, Stop> {
        let mut clients = Vec::new(alloc);
        for pieces in &self.clients {
            clients.push(client_of(alloc, pieces.as_slice())?)?;
        }
        Ok(clients)
    }

    /// A door at which they come in their order.
    pub fn turns(&self, alloc: Global) -> Result<TurnDoor, Stop>
        ensures { IfOk result (λ d. (d.taken ≡ 0) × (d.over ≡ 0) × (d.kept ≡ 0)) }
    {
        let order = Vec::from_slice(alloc, &self.order)?;
        Ok(TurnDoor::new(self.coming(alloc)?, order))
    }
}
