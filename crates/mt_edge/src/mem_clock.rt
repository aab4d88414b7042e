//! A clock in memory.
use crate::Clock;
use mt_base::LAST_MOMENT;
use std::marker::Model;

/// A clock that gives the moments of a list, one a call, and from then on one moment. No call takes memory.
#[derive(Drop)]
pub struct MemClock {
    listed: Vec<u64>,
    later: u64,
    asked: u64,
}

impl Model for MemClock {
    ghost use Rattle.std.specs.Prelude.{◌≤◌, All};
    ghost use Rattle.mt_base.specs.declared.limits.TheConstants.{LAST_MOMENT};
    ghost use Rattle.mt_edge.specs.Clocks.{ClockState};

    ghost Value = { ClockState };

    ghost view = { λ c. record { moments = record { listed = c.listed.items; later = c.later }; asked = c.asked } };

    ghost invariant = { λ c. All (λ m. m ≤ LAST_MOMENT) c.listed.items × (c.later ≤ LAST_MOMENT) };
}

impl MemClock {
    ghost use Rattle.std.specs.Prelude.{◌≡◌, ◌≤◌, All};

    /// A clock that gives these moments, in seconds since 1970, and `later` at each call past their end. It was not
    /// asked yet.
    pub fn new(listed: Vec<u64>, later: u64) -> MemClock
        requires listed { All (λ m. m ≤ LAST_MOMENT) listed.items }
        requires later { later ≤ LAST_MOMENT }
        ensures { result ≡ record { moments = record { listed = listed.items; later = later }; asked = 0 } }
    {
        MemClock {
            listed,
            later,
            asked: 0,
        }
    }
}

impl Clock for MemClock {
    ghost use Rattle.std.specs.Prelude.{ℕ, ◌≡◌, ◌≤◌};
    ghost use Rattle.mt_edge.specs.Clocks.{Moments, moment_at};

    ghost Rule = { Moments };

    ghost rule = { λ c. c.moments };

    ghost asked = { λ c. c.asked };

    ghost gives = { λ moments n t. t ≡ moment_at moments n };

    fn now(&mut self) -> u64 {
        let at = self.asked as usize;
        self.asked = self.asked.saturating_add(1);
        match self.listed.get(at) {
            Some(moment) => *moment,
            None => self.later,
        }
    }
}
