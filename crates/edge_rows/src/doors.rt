//! Doors, at which each link that is given is served and given back.
ghost use Rattle.std.specs.Prelude.{◌≡◌, ◌+◌};

use crate::streams::{put_bytes, put_echo};
use mt_edge::{Door, MemDoor, MemLink, Next};
use std::alloc::{AllocError, Global};
use std::marker::Model;

/// A door in memory, to which each link that was taken was given back.
#[derive(Drop)]
pub struct Served {
    door: MemDoor,
}

impl Model for Served {
    ghost use Rattle.std.specs.Prelude.{◌≡◌, length};
    ghost use Rattle.mt_edge.specs.MemoryDoor.{DoorState};

    ghost Value = { DoorState };

    ghost view = { λ s. s.door };

    ghost invariant = { λ s. length s.door.given_back ≡ s.door.taken };
}

// Serves a link of a door, which writes back what is read from it, gives it back, and prints what that did.
fn serve<D: Door>(door: &mut D, mut link: D::Link, out: &mut String) -> Result<(), AllocError>
    requires { D.over door.old + D.kept door.old + 1 ≡ D.taken door.old }
    ensures { D.over door.new + D.kept door.new ≡ D.taken door.new }
{
    let done = put_echo(&mut link, out);
    door.done(link);
    done
}

/// Serves the next link of a door, a new one where none is kept, and prints what that did.
pub fn visit<D: Door>(door: &mut D, out: &mut String) -> Result<(), AllocError>
    requires { D.over door.old + D.kept door.old ≡ D.taken door.old }
    ensures { D.over door.new + D.kept door.new ≡ D.taken door.new }
{
    match door.next(true) {
        Next::New(link) => serve(door, link, out),
        Next::Again(link) => serve(door, link, out),
        Next::Woken => out.push_str("Woken"),
        Next::Failed => out.push_str("None"),
    }
}

impl Served {
    /// A door at which these links wait, and whose calls of these numbers fail.
    pub fn new(
        alloc: Global,
        links: Vec<MemLink>,
        failing: Vec<u64>,
    ) -> Result<Served, AllocError> {
        let door = MemDoor::new(alloc, links)?.failing(failing);
        Ok(Served { door })
    }

    /// Serves the next link.
    pub fn visit(&mut self, out: &mut String) -> Result<(), AllocError> {
        visit(&mut self.door, out)
    }

    /// What was written to each link that was given back, in order.
    pub fn put_back(&self, out: &mut String) -> Result<(), AllocError> {
        let back = self.door.given_back();
        write!(out, "{}", back.len())?;
        for link in back {
            out.push(' ')?;
            put_bytes(out, link.sink.written())?;
        }
        Ok(())
    }
}
