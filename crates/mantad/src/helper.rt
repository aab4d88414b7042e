//! Where the program of the helpers is.
use std::alloc::{AllocError, Global};
use std::env::current_exe;
use std::fs;
use std::path::Path;

/// The option that names it.
const OPTION: &str = "--helper";

/// Its name.
const NAME: &str = "marlin_helper";

// Whether the words name it: behind the command each second word is an option.
fn is_named(words: &[String]) -> bool {
    words
        .iter()
        .skip(1)
        .step_by(2)
        .any(|word| word.as_str() == OPTION)
}

// The program of this name beside the one that runs.
fn beside(rt: HostRuntime) -> Option<String> {
    let program = current_exe(&rt).ok()?;
    let (folder, _) = program.as_str().rsplit_once('/')?;
    let helper = format!(in rt.alloc(); "{folder}/{NAME}").ok()?;
    let is_there = fs::metadata(&rt, helper.as_str()).is_ok_and(|found| found.is_file());
    is_there.then_some(helper)
}

/// The program of the helpers: the one that the words ask for, or, where they don't name it, the one beside this program, if it is there.
pub(crate) fn helper_of(
    rt: HostRuntime,
    words: &[String],
    asked: &str,
) -> Result<String, AllocError> {
    if !is_named(words) {
        if let Some(helper) = beside(rt) {
            return Ok(helper);
        }
    }
    String::from_str(rt.alloc(), asked)
}
