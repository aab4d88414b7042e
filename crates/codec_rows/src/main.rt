//! `codec_rows`: commands from bytes and back, and copies of values, row by row. Its stored run is the table of the
//! cases of `mt_codec` and `mt_types`.
//!
//! - `commands`: `mt_codec`. `copies`: the values of `mt_types` that have no bytes.
//! - `show`, `tell`, `command`: values as text. `hex`: words of hexadecimal digits.
#![tactic(auto)]

mod command;
mod commands;
mod copies;
mod hex;
mod show;
mod tell;

use commands::Commands;
use mt_rows::print_table;
use std::io;

fn main(rt: HostRuntime) -> io::Result<()> {
    print_table(&rt, &mut Commands::new(rt.alloc()))
}
