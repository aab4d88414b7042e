//! `manta_cli`: a client of the store over a connection to it. It makes the objects and calls `mt_client`.
//!
//! - `dial`: the connection, which is made at its first call. `output`: standard output, which knows what was last written to it.
//! - `help`: what `--help` and `--version` print. `tell`: what is said on standard error.
#![tactic(auto)]

mod dial;
mod help;
mod output;
mod tell;

use dial::Dial;
use help::print_help;
use mt_adapters::{Standard, StdSink, StdSource, words_of};
use mt_ask::url_of;
use mt_base::Text;
use mt_client::{ClientEnd, run};
use output::Output;
use std::alloc::{AllocError, Global};
use std::process::ExitCode;
use tell::tell_end;

// Runs the words over a connection to that address, and standard input and output.
fn call(rt: HostRuntime, words: &[String], address: &str) -> Result<ClientEnd, AllocError> {
    let alloc = rt.alloc();
    let mut link = Dial::to(rt, alloc, address);
    let mut source = StdSource::new(alloc, rt.stdin())?;
    let mut output = Output::over(StdSink::over(rt.stdout()));
    let end = run(alloc, words, &mut link, &mut source, &mut output);
    tell_end(&rt, end, address, link.failure(), output.last());
    Ok(end)
}

// The address that words begin with, or none that anything can be connected to.
fn address_of(alloc: Global, words: &[String]) -> Result<Text, AllocError> {
    match url_of(alloc, words)? {
        Some(url) => Ok(url),
        None => Text::from_str(alloc, ""),
    }
}

// Runs the words that the program was called with.
fn call_words(rt: HostRuntime) -> Result<u8, AllocError> {
    let alloc = rt.alloc();
    let words = words_of(&rt, alloc)?;
    if let Some(status) = print_help(rt, &words) {
        return Ok(status);
    }
    let address = address_of(alloc, &words)?;
    let end = call(rt, &words, address.as_str())?;
    Ok(end.code())
}

fn main(rt: HostRuntime) -> ExitCode {
    // Where a number can't be held, none is free.
    let _held = Standard::hold(&rt);
    match call_words(rt) {
        Ok(status) => ExitCode::from(status),
        Err(AllocError) => {
            tell_end(&rt, ClientEnd::Memory, "", None, b"");
            ExitCode::from(ClientEnd::Memory.code())
        }
    }
}
