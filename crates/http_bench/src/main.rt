//! `http_bench`: reads the messages of standard input, drops their bodies, and prints what they come to. It takes no
//! time by itself: a script does.
//!
//! - `count`: what the messages of a source come to.
#![tactic(auto)]

mod count;

use count::{Counts, Stop, count_messages};
use mt_adapters::StdSource;
use std::io;
use std::process::ExitCode;

/// The status where standard input failed.
const INPUT_FAILED: u8 = 3;

/// The status where standard output failed.
const OUTPUT_FAILED: u8 = 4;

/// The status where memory was wanted.
const OUT_OF_MEMORY: u8 = 8;

/// The status where the input ended within a message.
const CUT: u8 = 11;

/// The status where something else than a message stood there.
const NO_MESSAGE: u8 = 12;

// The status of an end, and its line.
fn told(stop: Stop) -> (u8, &'static str) {
    match stop {
        Stop::Bad => (NO_MESSAGE, "no message, or no chunked body"),
        Stop::TooLarge => (NO_MESSAGE, "a body above its limit"),
        Stop::TooMany => (NO_MESSAGE, "more than can be counted"),
        Stop::Cut => (CUT, "the input ended within a message"),
        Stop::SourceFault => (INPUT_FAILED, "standard input failed"),
        Stop::Memory => (OUT_OF_MEMORY, "want of memory"),
    }
}

// Counts the messages of standard input.
fn run(rt: &HostRuntime) -> Result<Counts, Stop> {
    let alloc = rt.alloc();
    match StdSource::new(alloc, rt.stdin()) {
        Ok(mut source) => count_messages(alloc, &mut source),
        Err(_) => Err(Stop::Memory),
    }
}

fn print(rt: &HostRuntime, counts: Counts) -> io::Result<()> {
    let Counts {
        messages,
        fields,
        bytes,
    } = counts;
    println!(rt; "{messages} messages, {fields} fields, {bytes} bytes of bodies")
}

fn main(rt: HostRuntime) -> ExitCode {
    match run(&rt) {
        Ok(counts) => match print(&rt, counts) {
            Ok(()) => ExitCode::SUCCESS,
            Err(_) => ExitCode::from(OUTPUT_FAILED),
        },
        Err(stop) => {
            let (status, line) = told(stop);
            let _ = eprintln!(rt; "http_bench: {line}");
            ExitCode::from(status)
        }
    }
}
