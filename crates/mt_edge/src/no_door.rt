//! A door that gives no link.
use crate::{Door, MemLink, Next};
use std::marker::Model;

/// A door at which no link ever waits, seen as the count of its faults.
#[derive(Drop)]
pub struct NoDoor {
    faults: u64,
}

impl Model for NoDoor {
    ghost use Rattle.std.specs.Prelude.{ℕ};

    ghost Value = { ℕ };

    ghost view = { λ d. d.faults };
}

impl NoDoor {
    ghost use Rattle.std.specs.Prelude.{◌≡◌};

    /// It has not failed yet.
    pub fn new() -> NoDoor
        ensures { result ≡ 0 }
    {
        NoDoor { faults: 0 }
    }
}

impl Door for NoDoor {
    ghost use Rattle.std.specs.Prelude.{◌≡◌, ◌+◌, min, [], true, Some, None};
    ghost use Rattle.mt_edge.specs.declared.next.Next.{Next};

    type Link = MemLink;

    ghost waiting = { λ d. Some [] };

    ghost given_back = { λ d. Some [] };

    ghost taken = { λ d. 0 };

    ghost over = { λ d. 0 };

    ghost kept = { λ d. 0 };

    ghost door_faults = { λ d. d };

    fn next(&mut self, _fresh: bool) -> Next<MemLink>
        ensures none { result ≡ Next.Failed }
        ensures counted { self.new ≡ min 18446744073709551615 (self.old + 1) }
    {
        self.faults = self.faults.saturating_add(1);
        Next::Failed
    }

    // No link was taken, so none is given back.
    fn done(&mut self, _link: MemLink) -> bool
        ensures { (result ≡ true) × (self.new ≡ self.old) }
    {
        true
    }
}
