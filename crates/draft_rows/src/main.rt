//! `draft_rows`: drafts of new logs, row by row. Its stored run is their table of cases.
//!
//! - `state`: the disk of the rows, and the steps of a session that is stopped.
//! - `session`: a log and a draft over a disk, of which a row may ask any call.
#![tactic(auto)]

mod session;
mod state;

use mt_rows::print_table;
use state::Drafts;
use std::io;

fn main(rt: HostRuntime) -> io::Result<()> {
    print_table(&rt, &mut Drafts::new(rt.alloc()))
}
