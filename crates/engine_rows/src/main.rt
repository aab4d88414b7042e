//! `engine_rows`: commands that are added to an engine, its bodies, its openings and its stops, row by row. Its stored run is their
//! table of cases.
//!
//! - `state`: the disk and the engine that rows speak of. `commands`: the rows that end a run. `jobs`: those on jobs.
//! - `closing`: those that store the texts of a job.
//! - `look`: what stands and what is sent.
//! - `stops`: sessions whose disk fails, and what a crash leaves of them.
#![tactic(auto)]

mod closing;
mod commands;
mod jobs;
mod look;
mod state;
mod stops;

use mt_rows::{Rows, print_table};
use state::Engines;
use std::io;

// Answers the rows of standard input.
fn run<T: Rows + Drop>(rt: &HostRuntime, mut rows: T) -> io::Result<()> {
    print_table(rt, &mut rows)
}

fn main(rt: HostRuntime) -> io::Result<()> {
    run(&rt, Engines::new(rt.alloc()))
}
