//! `disk_rows`: calls of a disk in memory and of the log over it, row by row. Its stored run is their table of cases.
//!
//! - `state`: the disk, of which rows may ask anything, and the log that they speak of.
//! - `disks`, `logs`: the calls of `mt_disk` and of `mt_log`. `stops`: sessions in which a call of the disk fails.
//! - `ahead`: reads over a disk of `mt_ahead`.
#![tactic(auto)]

mod ahead;
mod disks;
mod logs;
mod state;
mod stops;

use mt_rows::print_table;
use state::Disks;
use std::io;

fn main(rt: HostRuntime) -> io::Result<()> {
    print_table(&rt, &mut Disks::new(rt.alloc()))
}
