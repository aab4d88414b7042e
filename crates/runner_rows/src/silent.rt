//! A spawner that does not tell what its children end in, so that it is believed for nothing but sizes.
use crate::cases::Cases;
use mt_edge::{ReadStep, Source};
use mt_spawn::{Begun, MemSpawner, Order, Part, Spawner, Ticket, Waited};
use std::alloc::Global;

/// A spawner in memory that tells nothing.
#[derive(Drop)]
pub struct Silent {
    /// What runs the children.
    pub inner: MemSpawner<Cases>,
}

impl Spawner for Silent {
    ghost use Rattle.std.specs.Prelude.{None, ⊤};
    ghost use Rattle.std.proofs.lemmas.Option.{none-some};
    ghost use Rattle.mt_spawn.specs.Memory.{MemFate, held_of, seen_of};

    ghost Rule = { Unit {0} };

    ghost Fate = { MemFate };

    ghost rule = { λ s. tt };

    ghost seen = { λ s. seen_of s.inner.running.children.items.items s.inner.running.company s.inner.faults s.inner.waits };

    ghost held = { λ s. held_of s.inner.running.held };

    ghost told = { λ s. None };

    ghost gives = { λ rule run input raw. ⊤ };

    ghost may = { λ rule fate raw. ⊤ };

    fn start<S: Source>(&mut self, alloc: Global, order: &Order, bytes: &mut S) -> Begun {
        self.inner.start(alloc, order, bytes)
    }

    fn wait(&mut self, alloc: Global, patient: bool) -> Waited {
        self.inner.wait(alloc, patient)
    }

    fn read(&mut self, part: Part, at: u64, into: &mut [u8]) -> ReadStep {
        self.inner.read(part, at, into)
    }

    fn release(&mut self) {
        self.inner.release();
    }

    fn kill(&mut self, ticket: Ticket) {
        self.inner.kill(ticket);
    }

    ghost told_is_held = { λ s raw is. absurd (none-some raw is) };
}
