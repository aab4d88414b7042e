//! The system's clock.
use mt_base::LAST_MOMENT;
use mt_edge::Clock;
use std::marker::Model;
use std::time;

/// The moment that the system tells. Where the system's clock fails, the last moment that this one gave, at first
/// 1970-01-01T00:00:00Z. It counts how often it was asked.
#[derive(Drop)]
pub struct SystemClock<R> {
    rt: R,
    last: u64,
    asked: u64,
}

impl<R> Model for SystemClock<R> {
    ghost use Rattle.std.specs.Prelude.{◌≤◌};
    ghost use Rattle.mt_base.specs.declared.limits.TheConstants.{LAST_MOMENT};
    ghost use Rattle.mt_adapters.specs.Device.{SystemClockState};

    ghost Value = { SystemClockState };

    ghost view = { λ c. record { last = c.last; asked = c.asked } };

    ghost invariant = { λ c. c.last ≤ LAST_MOMENT };
}

impl<R> SystemClock<R> {
    ghost use Rattle.std.specs.Prelude.{◌≡◌};

    /// A clock that has given no moment yet. It makes no call of the system.
    pub fn new(rt: R) -> SystemClock<R>
        ensures { result ≡ record { last = 0; asked = 0 } }
    {
        SystemClock {
            rt,
            last: 0,
            asked: 0,
        }
    }
}

impl<R: time::Clock> Clock for SystemClock<R> {
    ghost use Rattle.std.specs.Prelude.{◌≡◌, ◌≤◌, ⊤};
    ghost use Rattle.mt_adapters.specs.Device.{one_more};

    ghost Rule = { Unit {0} };

    ghost rule = { λ c. tt };

    ghost asked = { λ c. c.asked };

    ghost gives = { λ rule n t. ⊤ };

    fn now(&mut self) -> u64
        ensures small { result ≤ LAST_MOMENT }
        ensures last { self.new ≡ record { last = result; asked = one_more self.old.asked } }
    {
        self.asked = self.asked.saturating_add(1);
        if let Ok(since_1970) = self.rt.since_1970() {
            self.last = since_1970.as_secs().min(LAST_MOMENT);
        }
        self.last
    }
}
