//! `message_rows`: messages from bytes and replies to bytes, row by row. Its stored run is the table of the cases of
//! `mt_http`.
//!
//! - `messages`: the rows, and what they set. `reading`: messages, heads and bodies. `replying`: replies.
//! - `show`: bytes and fields as text.
#![tactic(auto)]

mod messages;
mod reading;
mod replying;
mod show;

use messages::Messages;
use mt_rows::print_table;
use std::io;

fn main(rt: HostRuntime) -> io::Result<()> {
    print_table(&rt, &mut Messages::new(rt.alloc()))
}
