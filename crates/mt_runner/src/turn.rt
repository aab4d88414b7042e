//! How a turn ends.
ghost use Rattle.std.specs.Prelude.{◌≡◌};
ghost use Rattle.mt_runner.specs.Turning.{adds};

use mt_types::Task;

/// How a turn ended.
#[derive(Clone, Copy, Debug, PartialEq, Eq)]
pub enum Turn {
    /// The job of this number is done, with its archive.
    Closed(u64),
    /// A child of this task ended, and its fate is committed.
    Committed(Task),
    /// No task is ready, and no job waits to be finished.
    Idle,
    /// Children run, and none has ended.
    NotYet,
    /// The spawner failed, and counted it. The task that it concerns is ready again.
    SpawnFault,
    /// The command that is due has no room, and nothing was added: the log is as long as before.
    Full,
    /// The disk has failed, and counted it. Where that was behind a child's end or a job's, the engine is closed.
    Disk,
    /// Out of memory.
    Memory,
}

impl Turn {
    /// Whether it added a command.
    pub fn adds(&self) -> bool
        ensures { result ≡ adds self.now }
    {
        matches!(self, Turn::Closed(_) | Turn::Committed(_))
    }
}
