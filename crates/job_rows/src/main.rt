//! `job_rows`: the calls of the crates that jobs stand on, row by row. Its stored run is their table of cases.
//!
//! - `documents`: `mt_jobdoc`. `lines`: `mt_split`. `queues`: `mt_sched`. `records`: `mt_records`. `texts`: `mt_jobtext`.
#![tactic(auto)]

mod documents;
mod lines;
mod queues;
mod records;
mod texts;

use mt_rows::{Row, Rows, Stop, print_table};
use queues::Queues;
use std::alloc::Global;
use std::io;
use texts::Texts;

#[derive(Drop)]
struct Jobs {
    queues: Queues,
    texts: Texts,
}

impl Rows for Jobs {
    fn answer(
        &mut self,
        alloc: Global,
        line: &str,
        row: &Row,
        out: &mut String,
    ) -> Result<(), Stop> {
        if documents::answer(alloc, line, row, out)?
            || lines::answer(alloc, row, out)?
            || self.queues.answer(alloc, row, out)?
            || self.texts.answer(alloc, row, out)?
        {
            return Ok(());
        }
        records::answer(alloc, row, out)
    }
}

fn main(rt: HostRuntime) -> io::Result<()> {
    let mut jobs = Jobs {
        queues: Queues::new(rt.alloc()),
        texts: Texts::new(),
    };
    print_table(&rt, &mut jobs)
}
