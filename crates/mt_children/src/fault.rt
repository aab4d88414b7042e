//! Why a call of the spawner failed, and what is said of it on standard error.
use std::fmt;
use std::io::{self, Eprint};
use std::time::{Clock, Duration, Instant};

/// How long nothing more is said once a line was, in seconds.
const SILENCE: u64 = 60;

/// A program that tasks need.
#[derive(Clone, Copy, Debug, PartialEq, Eq)]
pub enum Tool {
    /// `sh`.
    Shell,
    /// `setsid`.
    Setsid,
    /// The program of the helpers, by its name or path.
    Helper,
}

/// Why a call of the spawner failed.
#[derive(Drop)]
pub enum TaskFault {
    /// A program that tasks need is not there, or can't be run.
    Missing(Tool),
    /// A task's folder could not be made or filled, or its shell not be started.
    Start(io::Error),
    /// A launcher has ended, and what it was given has not: the task was not run, or not to its end.
    NotRun,
    /// What a task left could not be looked at.
    Outcome(io::Error),
    /// An output of a task could not be read.
    Read(io::Error),
    /// The folder of a task could not be removed.
    Remove(io::Error),
}

impl Tool {
    // Its name.
    fn words(self) -> &'static str {
        match self {
            Tool::Shell => "'sh'",
            Tool::Setsid => "'setsid'",
            Tool::Helper => "the helper program (--helper)",
        }
    }
}

impl fmt::Display for TaskFault {
    fn fmt<W: fmt::Write>(&self, f: &mut fmt::Formatter<W>) -> fmt::Result {
        match self {
            TaskFault::Missing(tool) => write!(f, "{} not found", tool.words()),
            TaskFault::Start(error) => write!(f, "cannot start a task: {error}"),
            TaskFault::NotRun => write!(f, "the launcher exited before its task finished"),
            TaskFault::Outcome(error) => write!(f, "cannot read the result of a task: {error}"),
            TaskFault::Read(error) => write!(f, "cannot read an output of a task: {error}"),
            TaskFault::Remove(error) => write!(f, "cannot remove the directory of a task: {error}"),
        }
    }
}

// What was wrong, but for its words.
#[derive(Clone, Copy, PartialEq, Eq)]
enum Cause {
    Missing(Tool),
    NotRun,
    Call(u8, io::ErrorKind),
}

fn cause_of(fault: &TaskFault) -> Cause {
    match fault {
        TaskFault::Missing(tool) => Cause::Missing(*tool),
        TaskFault::NotRun => Cause::NotRun,
        TaskFault::Start(error) => Cause::Call(0, error.kind()),
        TaskFault::Outcome(error) => Cause::Call(1, error.kind()),
        TaskFault::Read(error) => Cause::Call(2, error.kind()),
        TaskFault::Remove(error) => Cause::Call(3, error.kind()),
    }
}

/// What was said of faults: a line for each cause that is another than the last one told, and at most one a minute.
#[derive(Drop)]
pub(crate) struct Teller {
    told: Option<Cause>,
    since: Option<Instant>,
}

impl Teller {
    /// Nothing was said.
    pub(crate) fn new() -> Teller {
        Teller {
            told: None,
            since: None,
        }
    }

    /// Says of a fault what is to be said. Nothing is to be done where it can't be written.
    pub(crate) fn tell<R: Clock + Eprint>(&mut self, rt: &R, fault: &TaskFault) {
        let cause = cause_of(fault);
        let silence = Duration::from_secs(SILENCE);
        let is_silent = match self.since {
            Some(since) => since.elapsed(rt).is_ok_and(|passed| passed < silence),
            None => false,
        };
        if is_silent || self.told == Some(cause) {
            return;
        }
        let _ = eprintln!(rt; "mantad: {fault}");
        self.told = Some(cause);
        self.since = Instant::now(rt).ok();
    }
}
