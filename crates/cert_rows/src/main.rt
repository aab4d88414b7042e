//! `cert_rows`: the calls of the crates of certificates, row by row. Its stored run is their table of cases.
//!
//! - `lines`: `mt_certline`. `checks`: `mt_checker`. `jobs`: `mt_cert`.
#![tactic(auto)]

mod checks;
mod jobs;
mod lines;

use checks::Checks;
use jobs::Jobs;
use mt_rows::{Row, Rows, Stop, print_table};
use std::alloc::Global;
use std::io;

#[derive(Drop)]
struct Certificates {
    checks: Option<Checks>,
    jobs: Jobs,
}

// What stands behind the first word of a line, as it stands.
fn behind(line: &str) -> &str {
    match line.split_once(' ') {
        Some((_call, rest)) => rest,
        None => "",
    }
}

// A checker's rows over these bytes.
fn checks_of(alloc: Global, bytes: &[u8]) -> Result<Checks, Stop> {
    let mut checks = Checks::new(alloc)?;
    checks.hold(bytes)?;
    Ok(checks)
}

impl Certificates {
    // What is written of a job is what is checked next.
    fn hold_written(&mut self, alloc: Global) -> Result<(), Stop> {
        self.checks = Some(checks_of(alloc, self.jobs.written())?);
        Ok(())
    }

    // The answer to a row of `mt_cert`.
    fn of_job(
        &mut self,
        alloc: Global,
        text: &str,
        row: &Row,
        out: &mut String,
    ) -> Result<(), Stop> {
        let done = self.jobs.answer(alloc, text, row, out);
        if matches!(row.text(0), Ok("certify")) {
            self.hold_written(alloc)?;
        }
        done
    }

    // The answer to a row of `mt_checker`.
    fn of_check(
        &mut self,
        alloc: Global,
        text: &str,
        row: &Row,
        out: &mut String,
    ) -> Result<(), Stop> {
        if self.checks.is_none() {
            self.checks = Some(Checks::new(alloc)?);
        }
        match &mut self.checks {
            Some(checks) => checks.answer(alloc, text, row, out),
            None => Err(Stop::NoSuchRow),
        }
    }
}

impl Rows for Certificates {
    fn answer(
        &mut self,
        alloc: Global,
        line: &str,
        row: &Row,
        out: &mut String,
    ) -> Result<(), Stop> {
        let text = behind(line);
        match row.text(0)? {
            "line" | "line-bytes" => lines::answer(alloc, text, row, out),
            "job"
            | "job-bytes"
            | "list"
            | "list-bytes"
            | "list-many"
            | "more"
            | "fits"
            | "certify"
            | "written" => self.of_job(alloc, text, row, out),
            _ => self.of_check(alloc, text, row, out),
        }
    }
}

fn main(rt: HostRuntime) -> io::Result<()> {
    let mut certificates = Certificates {
        checks: None,
        jobs: Jobs::new(rt.alloc()),
    };
    print_table(&rt, &mut certificates)
}
