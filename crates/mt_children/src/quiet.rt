//! Commands without a stream of this process.
use std::alloc::{AllocError, Global};
use std::process::{Command, Stdio};

/// A program with these words, whose standard input is empty and whose outputs go nowhere.
pub(crate) fn quiet_command(
    alloc: Global,
    program: &str,
    words: &[&str],
) -> Result<Command, AllocError> {
    let mut command = Command::new(alloc, program)?;
    for word in words {
        command.arg(word)?;
    }
    command
        .stdin(Stdio::null())
        .stdout(Stdio::null())
        .stderr(Stdio::null());
    Ok(command)
}
