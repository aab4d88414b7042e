//! `children_rows`: commands under a shell, row by row. It plays what a script asks for, and knows no wanted answer.
//!
//! - `plays`: the spawner that rows speak of. `starts`: orders. `ends`: waits, and what is read. `many`: many commands in turn.
#![tactic(auto)]

mod ends;
mod many;
mod plays;
mod starts;

use mt_rows::print_table;
use plays::Plays;
use std::io;

fn main(rt: HostRuntime) -> io::Result<()> {
    print_table(&rt, &mut Plays::new(rt)?)
}
