//! `body_rows`: bodies that are stored, read and sent, row by row. Its stored run is their table of cases.
//!
//! - `state`: the log, the source and the body that rows speak of.
#![tactic(auto)]

mod state;

use mt_rows::print_table;
use state::Bodies;
use std::io;

fn main(rt: HostRuntime) -> io::Result<()> {
    print_table(&rt, &mut Bodies::new(rt.alloc()))
}
