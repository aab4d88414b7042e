//! A spawner in memory that never fails.
use crate::{Begun, MemSpawner, Order, Part, Spawner, Ticket, Waited, Work};
use mt_edge::{NeverFails, ReadStep, Source};
use std::alloc::Global;

// It passes by its script: no start fails, each wait finds the child that was started first, and each read gives bytes. So its counts of
// faults and of waits are always 0.
impl<W: Work> Spawner for NeverFails<MemSpawner<W>> {
    ghost use Rattle.std.specs.Prelude.{◌≡◌, Bool};
    ghost use Rattle.std.proofs.Common.{ap};
    ghost use Rattle.mt_spawn.specs.Memory.{IsOutcome, MemFate, held_of, seen_of};

    ghost Rule = { W };

    ghost Fate = { MemFate };

    ghost rule = { λ s. s.inner.running.work };

    ghost seen = { λ s. seen_of s.inner.running.children.items.items s.inner.running.company 0 0 };

    ghost held = { λ s. held_of s.inner.running.held };

    ghost told = { λ s. s.inner.running.held };

    ghost gives = { λ work run input raw. (otherwise : Bool) × (raw ≡ W.raw_of work run input otherwise) };

    ghost may = { λ work fate raw. IsOutcome (W.raw_of work) fate raw };

    // Out of memory stands for out of tickets too.
    fn start<S: Source>(&mut self, alloc: Global, order: &Order, bytes: &mut S) -> Begun {
        if self.inner.running.children.is_full() {
            return Begun::Memory;
        }
        self.inner.running.begin(alloc, order, bytes, 0, false)
    }

    fn wait(&mut self, alloc: Global, _patient: bool) -> Waited {
        if self.inner.running.children.len() == 0 {
            return Waited::Memory;
        }
        self.inner.running.end(alloc, 0)
    }

    fn read(&mut self, part: Part, at: u64, into: &mut [u8]) -> ReadStep {
        self.inner.running.read(part, at, into)
    }

    fn release(&mut self) {
        self.inner.running.held = None;
    }

    fn kill(&mut self, ticket: Ticket) {
        self.inner.running.children.remove(ticket.number);
    }

    ghost told_is_held = { λ s raw is. ap held_of is };
}
