//! `snapshot_rows`: records of a snapshot from bytes and back, row by row. Its stored run is the table of the cases of `mt_snapshot`.
//!
//! - `records`: the rows. `written`: a record written again, its bodies at other places. `job`: lists as long as a record says.
//! - `show`: records as text. `hex`: words of hexadecimal digits.
#![tactic(auto)]

mod hex;
mod job;
mod records;
mod show;
mod written;

use mt_rows::print_table;
use records::Records;
use std::io;

fn main(rt: HostRuntime) -> io::Result<()> {
    print_table(&rt, &mut Records::new(rt.alloc()))
}
