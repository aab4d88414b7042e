//! `marlin_check LOGIN`: checks the certificate of a job that stands on standard input, and says on standard output whether it adds up.
#![tactic(auto)]

use mt_adapters::{Standard, StdSink, StdSource, words_of};
use mt_checker::{CheckEnd, check};
use mt_path::is_login;
use std::alloc::AllocError;
use std::process::ExitCode;

/// The status of words that are none of this program.
const USAGE: u8 = 1;

// Why a check has no verdict, on standard error. Nothing is to be done where it can't be written.
fn tell(rt: &HostRuntime, end: CheckEnd) {
    let why = match end {
        CheckEnd::Accepted | CheckEnd::Refused(_) => return,
        CheckEnd::SourceFault => "standard input can't be read",
        CheckEnd::SinkFault => "standard output can't be written to",
        CheckEnd::Memory => "out of memory",
    };
    let _ = eprintln!(rt; "marlin_check: {why}");
}

// Checks standard input.
fn call(rt: HostRuntime, login: &str) -> Result<CheckEnd, AllocError> {
    let alloc = rt.alloc();
    let mut source = StdSource::new(alloc, rt.stdin())?;
    let mut sink = StdSink::over(rt.stdout());
    Ok(check(alloc, login, &mut source, &mut sink))
}

// The login that words ask for.
fn login_of(words: &[String]) -> Option<&str> {
    match words {
        [login] => {
            if is_login(login.as_bytes()) {
                Some(login.as_str())
            } else {
                None
            }
        }
        _ => None,
    }
}

// Checks standard input for the account that the words name.
fn run(rt: HostRuntime) -> Result<u8, AllocError> {
    let words = words_of(&rt, rt.alloc())?;
    match login_of(&words) {
        Some(login) => {
            let end = call(rt, login)?;
            tell(&rt, end);
            Ok(end.code())
        }
        None => {
            let _ = eprintln!(rt; "usage: marlin_check LOGIN");
            Ok(USAGE)
        }
    }
}

fn main(rt: HostRuntime) -> ExitCode {
    // Where a number can't be held, none is free.
    let _held = Standard::hold(&rt);
    match run(rt) {
        Ok(code) => ExitCode::from(code),
        Err(AllocError) => {
            tell(&rt, CheckEnd::Memory);
            ExitCode::from(CheckEnd::Memory.code())
        }
    }
}
