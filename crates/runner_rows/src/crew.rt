//! A runner with its spawner, over a disk that tells nothing.
ghost use Rattle.std.specs.Prelude.{◌≡◌, [], None};
ghost use Rattle.mt_runner.specs.Attempts.{ArePaired};

use mt_edge::{FixedClock, LAST_MOMENT};
use mt_engine::Engine;
use mt_rows::Stop;
use mt_runner::{Runner, Turn};
use mt_spawn::Spawner;
use mt_untold::Untold;
use std::alloc::Global;

/// Whose commands they are.
const LOGIN: &str = "l";

/// A runner, and the spawner of its children.
#[derive(Drop)]
pub struct Crew<P: Spawner + Drop> {
    runner: Runner,
    spawner: P,
    ghost paired: { ArePaired runner.kept (P.seen spawner).live },
    ghost free: { P.held spawner ≡ None },
}

impl<P: Spawner + Drop> Crew<P> {
    /// A runner of so many slots, with a spawner that has started nothing.
    pub fn new(alloc: Global, slots: u64, spawner: P) -> Result<Crew<P>, Stop>
        requires idle { (P.seen spawner).live ≡ [] }
        requires free { P.held spawner ≡ None }
    {
        if slots == 0 {
            return Err(Stop::NoSuchRow);
        }
        let runner = Runner::new(alloc, LOGIN, slots)?;
        Ok(Crew { runner, spawner })
    }

    /// The spawner as it stands.
    pub fn spawner(&self) -> &P {
        &self.spawner
    }

    /// At most so many turns, one at least, at a moment, until one adds nothing; what the last one did.
    pub fn drain(
        &mut self,
        alloc: Global,
        disk: &mut Untold,
        engine: &mut Engine,
        most: u64,
        moment: u64,
    ) -> Result<Turn, Stop> {
        if engine.is_closed() || engine.is_old() || most == 0 || moment > LAST_MOMENT {
            return Err(Stop::NoSuchRow);
        }
        let mut clock = FixedClock::new(moment);
        Ok(
            self.runner.drain(
                alloc,
                engine,
                disk,
                &mut self.spawner,
                &mut clock,
                most,
                true,
            ),
        )
    }

    /// One turn, at a moment.
    pub fn turn(
        &mut self,
        alloc: Global,
        disk: &mut Untold,
        engine: &mut Engine,
        moment: u64,
    ) -> Result<Turn, Stop> {
        if engine.is_closed() || engine.is_old() || moment > LAST_MOMENT {
            return Err(Stop::NoSuchRow);
        }
        let mut clock = FixedClock::new(moment);
        Ok(
            self.runner
                .turn(alloc, engine, disk, &mut self.spawner, &mut clock, true),
        )
    }

    /// Ends all children.
    pub fn stop(&mut self) {
        self.runner.stop(&mut self.spawner);
    }
}
