//! `tree_bench ROWS rising|mixed`: does what each line of its input asks for, so that a script takes the time and the memory of
//! each.
//!
//! - `words`: what is to be done; `outcome`: why it was not done, as a line and a status.
//! - `rows`: the rows of the measurement; `work`: what is done with them.
#![tactic(auto)]

mod outcome;
mod rows;
mod words;
mod work;

use mt_adapters::words_of;
use outcome::Fault;
use std::process::ExitCode;
use words::{Load, work_of};
use work::Bench;

// Does what a line asks for, and prints what it found.
fn do_line(rt: &HostRuntime, bench: &mut Bench, line: &str) -> Result<(), Fault> {
    let found = bench.do_work(rt.alloc(), work_of(line)?)?;
    match println!(rt; "{line}: {found}") {
        Ok(()) => Ok(()),
        Err(_) => Err(Fault::Output),
    }
}

// Does what each line of standard input asks for, so that a script sees where each work ends.
fn do_lines(rt: &HostRuntime, bench: &mut Bench) -> Result<(), Fault> {
    for line in rt.lines(rt.alloc()) {
        match line {
            Ok(line) => do_line(rt, bench, line.as_str())?,
            Err(_) => return Err(Fault::Input),
        }
    }
    Ok(())
}

// The load that the words of the program ask for.
fn load_of(rt: &HostRuntime) -> Result<Load, Fault> {
    Load::read(&words_of(rt, rt.alloc())?)
}

fn run(rt: &HostRuntime) -> Result<(), Fault> {
    let mut bench = Bench::new(rt.alloc(), load_of(rt)?)?;
    do_lines(rt, &mut bench)
}

fn main(rt: HostRuntime) -> ExitCode {
    let status = match run(&rt) {
        Ok(()) => 0,
        Err(fault) => {
            let _ = eprintln!(rt; "tree_bench: {fault}");
            fault.status()
        }
    };
    ExitCode::from(status)
}
