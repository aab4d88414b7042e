//! `upload_rows`: the calls of the crates of uploads in parts, row by row. Its stored run is their table of cases.
//!
//! - `documents`: `mt_uploaddoc`.
//! - `joins`: `mt_join`, over a log.
//! - `steps`: `mt_upload`, over an `account`: its rows and its uploads together, and what changes them.
#![tactic(auto)]

mod account;
mod documents;
mod joins;
mod steps;

use joins::Joins;
use mt_rows::{Row, Rows, Stop, print_table};
use std::alloc::Global;
use std::io;
use steps::Steps;

#[derive(Drop)]
struct Uploads {
    joins: Joins,
    steps: Steps,
}

impl Rows for Uploads {
    fn answer(
        &mut self,
        alloc: Global,
        line: &str,
        row: &Row,
        out: &mut String,
    ) -> Result<(), Stop> {
        match row.text(0)? {
            "upload" | "upload-bytes" | "numbers" | "numbers-bytes" | "listed" | "state" => {
                documents::answer(alloc, line, row, out)
            }
            "open" | "size" | "fail" | "one" | "stored" | "join" | "whole" => {
                self.joins.answer(alloc, row, out)
            }
            _ => self.steps.answer(alloc, row, out),
        }
    }
}

fn main(rt: HostRuntime) -> io::Result<()> {
    let mut uploads = Uploads {
        joins: Joins::new(rt.alloc()),
        steps: Steps::new(),
    };
    print_table(&rt, &mut uploads)
}
