//! `tree_rows`: a tree of directories and objects, changed and asked step by step. Its stored run is the table of the
//! cases of `mt_tree` and `mt_store`.
//!
//! - `steps`: the tree, and the rows. `deciding`: the calls of `mt_store`. `listing`: pages and counts.
//! - `words`: paths and conditions of a row.
#![tactic(auto)]

mod deciding;
mod listing;
mod steps;
mod words;

use mt_rows::print_table;
use std::io;
use steps::Steps;

fn main(rt: HostRuntime) -> io::Result<()> {
    match Steps::new(rt.alloc()) {
        Ok(mut steps) => print_table(&rt, &mut steps),
        Err(_) => println!(rt; "Memory"),
    }
}
