//! `request_rows`: requests, replies and pages, row by row. Its stored run is the table of the cases of `mt_error`,
//! `mt_request`, `mt_reply` and `mt_live`.
//!
//! - `asking`: heads read into what they ask for. `replying`: replies, as they are written. `listing`: the lines of pages.
//!   Each leaves the rows that it doesn't know to the next.
//! - `codes`: errors by their names.
#![tactic(auto)]

mod asking;
mod codes;
mod listing;
mod replying;

use mt_rows::{Row, Rows, Stop, print_table};
use std::alloc::Global;
use std::io;

#[derive(Drop)]
struct Requests;

impl Rows for Requests {
    fn answer(
        &mut self,
        alloc: Global,
        _line: &str,
        row: &Row,
        out: &mut String,
    ) -> Result<(), Stop> {
        asking::answer(alloc, row, out)
    }
}

fn main(rt: HostRuntime) -> io::Result<()> {
    print_table(&rt, &mut Requests)
}
