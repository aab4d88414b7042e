//! `account_rows`: the calls of `mt_account` on an account, row by row. Its stored run is the table of their cases.
//!
//! - `steps`: the account, and the rows that change it or ask it. `hex`: words of hexadecimal digits.
#![tactic(auto)]

mod hex;
mod steps;

use mt_rows::print_table;
use std::io;
use steps::Steps;

fn main(rt: HostRuntime) -> io::Result<()> {
    print_table(&rt, &mut Steps::new())
}
