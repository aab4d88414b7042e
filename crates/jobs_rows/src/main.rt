//! `jobs_rows`: the calls of `mt_jobs` on an account, row by row. Its stored run is the table of their cases.
//!
//! - `account`: rows and jobs together, and what changes them. `words`: what the words of a row stand for.
//! - `listing`: jobs that are taken from a list, and `taken`: the rows that take them.
//! - `steps`: the rows that change an account. `shown`, `orders`: the rows that ask. `many`: rows that do much at once, for bench/jobs.
#![tactic(auto)]

mod account;
mod listing;
mod many;
mod orders;
mod shown;
mod steps;
mod taken;
mod words;

use mt_rows::print_table;
use std::io;
use steps::Steps;

fn main(rt: HostRuntime) -> io::Result<()> {
    print_table(&rt, &mut Steps::new())
}
