//! What tasks need: the folder that theirs stand in, a shell, and the programs that it calls.
use crate::fault::Tool;
use std::alloc::{AllocError, Global};
use std::fs::DirBuilder;
use std::io::{self, ErrorKind};
use std::os::unix::fs::DirBuilderExt;
use std::process::{Command, ExitStatus, Processes, Stdio};
use std::rt::Files;

/// The rights of the folder of tasks: its user's alone, since inputs and outputs stand in it.
const FOLDER_MODE: u32 = 0o700;

/// What the shell looks for: `setsid`, and the program of the helpers, its one word.
const LOOKS: &str = "command -v setsid || exit 3; command -v \"$1\" || exit 4";

/// The shell's status where `setsid` is not there.
const NO_SETSID: i32 = 3;

/// The shell's status where the program of the helpers is not there.
const NO_HELPER: i32 = 4;

/// Why no task can be started.
#[derive(Drop)]
pub(crate) enum Unready {
    /// A program that tasks need is not there.
    Missing(Tool),
    /// A call of the system has failed, or memory was wanting.
    System(io::Error),
}

// A command without streams.
fn looks(alloc: Global, helper: &str) -> Result<Command, AllocError> {
    let mut command = Command::new(alloc, "sh")?;
    command.arg("-c")?.arg(LOOKS)?.arg("sh")?.arg(helper)?;
    command
        .stdin(Stdio::null())
        .stdout(Stdio::null())
        .stderr(Stdio::null());
    Ok(command)
}

// What is missing by the shell's status.
fn missing_by(status: ExitStatus) -> Option<Tool> {
    if status.success() {
        return None;
    }
    match status.code() {
        Some(NO_SETSID) => Some(Tool::Setsid),
        Some(NO_HELPER) => Some(Tool::Helper),
        _ => Some(Tool::Shell),
    }
}

// What is missing, if something is.
fn missing<R: Processes>(rt: &R, alloc: Global, helper: &str) -> io::Result<Option<Tool>> {
    match looks(alloc, helper)?.status(rt) {
        Ok(status) => Ok(missing_by(status)),
        Err(error) if error.kind() == ErrorKind::NotFound => Ok(Some(Tool::Shell)),
        Err(error) => Err(error),
    }
}

/// Makes the folder of tasks where it is missing, and sees that all is there that tasks need.
pub(crate) fn prepare<R: Files + Processes>(
    rt: &R,
    alloc: Global,
    work: &str,
    helper: &str,
) -> Result<(), Unready> {
    let mut builder = DirBuilder::new();
    builder.recursive(true).mode(FOLDER_MODE);
    if let Err(error) = builder.create(rt, work) {
        return Err(Unready::System(error));
    }
    match missing(rt, alloc, helper) {
        Ok(None) => Ok(()),
        Ok(Some(tool)) => Err(Unready::Missing(tool)),
        Err(error) => Err(Unready::System(error)),
    }
}
