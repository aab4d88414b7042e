//! `runner_rows`: turns at the tasks of an account in memory, row by row. Its stored run is their table of cases.
//!
//! - `state`: what rows speak of. `account`: the rows on the account. `look`: what stands in it.
//! - `cases`: what commands do. `silent`: a spawner that tells nothing of it.
//! - `crew`: a runner with its spawner. `form`: whether the spawner tells. `script`: what becomes of its calls.
//! - `stops`: turns whose disk fails, and what a crash leaves of them.
#![tactic(auto)]

mod account;
mod cases;
mod crew;
mod form;
mod look;
mod script;
mod silent;
mod state;
mod stops;

use mt_rows::{Rows, print_table};
use state::Turns;
use std::io;

// Answers the rows of standard input.
fn run<T: Rows + Drop>(rt: &HostRuntime, mut rows: T) -> io::Result<()> {
    print_table(rt, &mut rows)
}

fn main(rt: HostRuntime) -> io::Result<()> {
    run(&rt, Turns::new(rt.alloc()))
}
