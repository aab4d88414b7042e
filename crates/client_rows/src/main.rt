//! `client_rows`: the calls of the leaves of a client, row by row. Its stored run is their table of cases.
//!
//! - `values`: `mt_json`. `replies`: `mt_response`. `pages`: `mt_page`.
#![tactic(auto)]

mod pages;
mod replies;
mod values;

use mt_rows::{Row, Rows, Stop, print_table};
use replies::Replies;
use std::alloc::Global;
use std::io;

#[derive(Drop)]
struct Leaves {
    replies: Option<Replies>,
}

// What stands behind the first word of a line, as it stands.
fn behind(line: &str) -> &str {
    match line.split_once(' ') {
        Some((_call, rest)) => rest,
        None => "",
    }
}

impl Rows for Leaves {
    fn answer(
        &mut self,
        alloc: Global,
        line: &str,
        row: &Row,
        out: &mut String,
    ) -> Result<(), Stop> {
        let text = behind(line);
        match row.text(0)? {
            "value" | "value-bytes" | "first" => return values::answer(alloc, text, row, out),
            "page" => return pages::answer(alloc, row, out),
            _ => {}
        }
        if self.replies.is_none() {
            self.replies = Some(Replies::new(alloc));
        }
        match &mut self.replies {
            Some(replies) => replies.answer(alloc, text, row, out),
            None => Err(Stop::NoSuchRow),
        }
    }
}

fn main(rt: HostRuntime) -> io::Result<()> {
    let mut leaves = Leaves { replies: None };
    print_table(&rt, &mut leaves)
}
