//! `edge_rows`: calls of sources, sinks, links, doors and clocks in memory, row by row. Its stored run is
//! their table of cases.
//!
//! - `state`: the source and the sink that rows speak of. `streams`: reads and writes.
//! - `doors`: links that are served. `outside`: the clock, and the door that gives none.
#![tactic(auto)]

mod doors;
mod outside;
mod state;
mod streams;

use mt_rows::print_table;
use state::Edges;
use std::io;

fn main(rt: HostRuntime) -> io::Result<()> {
    print_table(&rt, &mut Edges::new(rt.alloc()))
}
