//! `marlin_helper FOLDER LOGIN TOOL ARGUMENTS`: the helpers of a task over standard input and output, whose records stand in a folder.
//!
//! - `tell`: what is said on standard error.
#![tactic(auto)]

mod tell;

use mt_adapters::{Standard, StdSink, StdSource, words_of};
use mt_children::FolderSpool;
use mt_helper::{Status, helper};
use std::alloc::{AllocError, Global};
use std::process::ExitCode;
use tell::tell;

// Calls the helper over these ends, and standard input and output.
fn call(
    rt: HostRuntime,
    words: &[String],
    spool: &mut FolderSpool<HostRuntime>,
) -> Result<Status, AllocError> {
    let alloc = rt.alloc();
    let mut source = StdSource::new(alloc, rt.stdin())?;
    let mut sink = StdSink::over(rt.stdout());
    Ok(helper(alloc, words, &mut source, &mut sink, spool))
}

// Calls the helper by its words, of which the first names the folder.
fn run(rt: HostRuntime) -> Result<Status, AllocError> {
    let alloc = rt.alloc();
    let words = words_of(&rt, alloc)?;
    let [folder, words @ ..] = words.as_slice() else {
        tell(&rt, &[], Status::Usage, None);
        return Ok(Status::Usage);
    };
    let mut spool = FolderSpool::new(alloc, rt, folder.as_str())?;
    let status = call(rt, words, &mut spool)?;
    tell(&rt, words, status, spool.failure());
    Ok(status)
}

fn main(rt: HostRuntime) -> ExitCode {
    // Where a number can't be held, none is free.
    let _held = Standard::hold(&rt);
    match run(rt) {
        Ok(status) => ExitCode::from(status.code()),
        Err(AllocError) => ExitCode::from(Status::OutOfMemory.code()),
    }
}
