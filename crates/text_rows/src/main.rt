//! `text_rows`: the calls of the crates below that read, print and judge values, row by row. Its stored run is
//! their table of cases.
//!
//! - `paths`, `keys`: `mt_path`. `conditions`: `mt_cond`. `identifiers`: `mt_ident`. `numbers`: `mt_bytes`.
//! - `values`: `mt_base`. Each leaves the rows that it doesn't know to the next.
#![tactic(auto)]

mod conditions;
mod identifiers;
mod keys;
mod numbers;
mod paths;
mod values;

use mt_rows::{Row, Rows, Stop, print_table};
use std::alloc::Global;
use std::fmt::Debug;
use std::io;

#[derive(Drop)]
struct Texts;

impl Rows for Texts {
    fn answer(
        &mut self,
        alloc: Global,
        _line: &str,
        row: &Row,
        out: &mut String,
    ) -> Result<(), Stop> {
        paths::answer(alloc, row, out)
    }
}

/// Appends a value as it is debugged.
pub fn put_shown<T: Debug>(out: &mut String, value: &T) -> Result<(), Stop> {
    Ok(write!(out, "{value:?}")?)
}

fn main(rt: HostRuntime) -> io::Result<()> {
    print_table(&rt, &mut Texts)
}
