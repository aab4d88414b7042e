//! `lives_rows`: lives of a store with a job, one after another, row by row. Its stored run is the table of what each of them
//! tells and leaves.
//!
//! - `story`: what the lives are sent, and what their children write; `cases`: its rows.
//! - `lives`: a life that is stopped, and the next one. `rows`: stops, chains and faults.
//! - `store`: the files, and one life over them. `replies`: what replies tell. `children`: commands of tasks, in memory.
#![tactic(auto)]

mod cases;
mod children;
mod lives;
mod replies;
mod rows;
mod store;
mod story;

use cases::Cases;
use mt_rows::print_table;
use std::io;

fn main(rt: HostRuntime) -> io::Result<()> {
    print_table(&rt, &mut Cases::new(rt.alloc()))
}
