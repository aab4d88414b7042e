//! `spawn_rows`: children in memory by a script, what they leave, and spools, row by row. Its stored run is their table of cases.
//!
//! - `state`: the spawner and the spool that rows speak of. `script`: what becomes of calls. `echo`: what the children do.
//! - `starts`, `held`: starts and waits, and what is read of an ended child. `spools`: files by number.
#![tactic(auto)]

mod echo;
mod held;
mod script;
mod spools;
mod starts;
mod state;

use mt_rows::print_table;
use state::Spawns;
use std::io;

fn main(rt: HostRuntime) -> io::Result<()> {
    print_table(&rt, &mut Spawns::new(rt.alloc()))
}
