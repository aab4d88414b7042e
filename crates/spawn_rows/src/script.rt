//! What becomes of the calls of the next spawner.
use crate::echo::Echo;
use mt_rows::{Row, Stop};
use mt_spawn::{MemSpawner, Script};
use std::alloc::Global;

/// The script of the next spawner, and what its children write.
#[derive(Drop)]
pub struct Plan {
    script: Script,
    too_large: Option<u64>,
}

impl Plan {
    /// Each child ends at the first wait, and no call fails.
    pub fn new(alloc: Global) -> Plan {
        Plan {
            script: Script::new(alloc),
            too_large: None,
        }
    }

    /// A spawner by this plan.
    pub fn spawner(self, alloc: Global) -> MemSpawner<Echo> {
        let Plan { script, too_large } = self;
        MemSpawner::new(alloc, Echo { too_large }, script)
    }

    /// Takes a row of the script; whether it is one.
    pub fn take(&mut self, alloc: Global, row: &Row) -> Result<bool, Stop> {
        let place = match row.text(0)? {
            "waits" => &mut self.script.waits,
            "otherwise" => &mut self.script.otherwise,
            "starts-fail" => &mut self.script.starts_fail,
            "waits-fail" => &mut self.script.waits_fail,
            "waits-lose" => &mut self.script.waits_lose,
            "reads-fail" => &mut self.script.reads_fail,
            "too-large" => {
                self.too_large = Some(row.number(1)?);
                return Ok(true);
            }
            _ => return Ok(false),
        };
        *place = row.numbers(alloc, 1)?;
        Ok(true)
    }
}
