//! The spawner that rows speak of.
use crate::{ends, many, starts};
use mt_children::ShSpawner;
use mt_rows::{Row, Rows, Stop};
use std::alloc::{AllocError, Global};
use std::time::Duration;

/// A spawner, and which read of the next start's bytes fails.
#[derive(Drop)]
pub(crate) struct Plays {
    rt: HostRuntime,
    pub(crate) spawner: ShSpawner<HostRuntime>,
    pub(crate) failing: Option<u64>,
}

impl Plays {
    /// Commands below the folder `tasks`.
    pub(crate) fn new(rt: HostRuntime) -> Result<Plays, AllocError> {
        Ok(Plays {
            rt,
            spawner: ShSpawner::new(rt.alloc(), rt, "tasks", "marlin_helper", "l")?,
            failing: None,
        })
    }

    // `spawner WORK HELPER MILLISECONDS LAUNCHER`: how long a wait takes, and what runs the commands, where they are not `-`.
    fn make(&mut self, alloc: Global, row: &Row) -> Result<(), Stop> {
        let spawner = ShSpawner::new(alloc, self.rt, row.text(1)?, row.text(2)?, "l")?;
        let spawner = match row.text(4)? {
            "-" => spawner,
            launcher => spawner.through(launcher)?,
        };
        self.spawner = match row.text(3)? {
            "-" => spawner,
            _ => spawner.within(Duration::from_millis(row.number(3)?)),
        };
        Ok(())
    }

    // How many children live, and what was counted.
    fn put_state(&self, out: &mut String) -> Result<(), Stop> {
        let spawner = &self.spawner;
        write!(
            out,
            "live {} faults {} waits {} company {}",
            spawner.live(),
            spawner.faults(),
            spawner.waits(),
            spawner.company()
        )?;
        Ok(())
    }

    fn put_failure(&self, out: &mut String) -> Result<(), Stop> {
        match self.spawner.failure() {
            Some(failure) => write!(out, "{failure}")?,
            None => out.push_str("none")?,
        }
        Ok(())
    }
}

impl Rows for Plays {
    fn answer(
        &mut self,
        alloc: Global,
        _line: &str,
        row: &Row,
        out: &mut String,
    ) -> Result<(), Stop> {
        match row.text(0)? {
            "spawner" => self.make(alloc, row),
            "state" => self.put_state(out),
            "failure" => self.put_failure(out),
            "failing" => {
                self.failing = Some(row.number(1)?);
                Ok(())
            }
            "start" => starts::put_start(self, alloc, row, out),
            "wait" => ends::put_wait(&mut self.spawner, alloc, true, out),
            "look" => ends::put_wait(&mut self.spawner, alloc, false, out),
            "read" => ends::put_read(&mut self.spawner, alloc, row, out),
            "all" => ends::put_all(&mut self.spawner, row, out),
            "release" => ends::put_release(&mut self.spawner, out),
            "kill" => ends::put_kill(&mut self.spawner, row, out),
            "many" => many::put_many(&mut self.spawner, alloc, row, out),
            _ => Err(Stop::NoSuchRow),
        }
    }
}
