//! A spawner that starts nothing.
use crate::{Begun, Order, Part, Spawner, Ticket, Waited};
use mt_edge::{ReadStep, Source};
use std::alloc::Global;
use std::marker::Model;

/// A spawner whose starts all fail, seen as the count of its faults. No child of it ever lives.
#[derive(Drop)]
pub struct NoSpawner {
    faults: u64,
}

impl Model for NoSpawner {
    ghost use Rattle.std.specs.Prelude.{ℕ};

    ghost Value = { ℕ };

    ghost view = { λ s. s.faults };
}

impl NoSpawner {
    ghost use Rattle.std.specs.Prelude.{◌≡◌};

    /// No start has failed yet.
    pub fn new() -> NoSpawner
        ensures { result ≡ 0 }
    {
        NoSpawner { faults: 0 }
    }
}

impl Spawner for NoSpawner {
    ghost use Rattle.std.specs.Prelude.{◌≡◌, ◌+◌, min, [], None};
    ghost use Rattle.std.proofs.lemmas.Option.{none-some};

    ghost Rule = { Unit {0} };

    ghost Fate = { Unit {0} };

    ghost rule = { λ s. tt };

    ghost seen = { λ s. record { live = []; faults = s; waits = 0; company = 0 } };

    ghost held = { λ s. None };

    ghost told = { λ s. None };

    ghost gives = { λ rule run input raw. ⊥ };

    ghost may = { λ rule fate raw. ⊥ };

    fn start<S: Source>(&mut self, _alloc: Global, _order: &Order, _bytes: &mut S) -> Begun
        ensures failed { result ≡ Begun.Failed }
        ensures counted { self.new ≡ min 18446744073709551615 (self.old + 1) }
        ensures input { _bytes.new ≡ _bytes.old }
    {
        self.faults = self.faults.saturating_add(1);
        Begun::Failed
    }

    // No child lives, so none is waited for, and nothing is held.
    fn wait(&mut self, _alloc: Global, _patient: bool) -> Waited
        ensures { (result ≡ Waited.NotYet) × (self.new ≡ self.old) }
    {
        Waited::NotYet
    }

    fn read(&mut self, _part: Part, _at: u64, _into: &mut [u8]) -> ReadStep
        ensures { (result ≡ ReadStep.End) × (self.new ≡ self.old) }
    {
        ReadStep::End
    }

    fn release(&mut self)
        ensures { self.new ≡ self.old }
    {}

    fn kill(&mut self, _ticket: Ticket)
        ensures { self.new ≡ self.old }
    {}

    ghost told_is_held = { λ s raw is. absurd (none-some raw is) };
}
