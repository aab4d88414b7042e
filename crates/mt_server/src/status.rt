//! How a run ended, and the number that the program ends with.
ghost use Rattle.std.specs.Prelude.{◌≡◌};
ghost use Rattle.mt_server.specs.Statuses.{code_of};

use mt_connection::ConnectionEnd;
use mt_opening::Unreadable;
use mt_runner::Turn;

/// How the serving of links ended.
#[derive(Clone, Copy, Debug, PartialEq, Eq)]
pub enum ServeEnd {
    /// 0: as many links as were asked for were taken, each was served until it was over, no task is ready, and each job whose input has ended is done.
    Served,
    /// 6: the same, but tasks are left, since their spawner failed, and counted it.
    TasksFailed,
    /// 7: the same, but tasks are left, which still run or came one behind the other without an end.
    TasksPending,
    /// 10: the door failed before that, and counted it.
    NoLink,
    /// 9: a command that a turn had to add has no room in the log.
    LogFull,
    /// 5: the disk failed, and counted it. Each link was given back.
    Disk,
    /// 8: memory was wanted. Each link was given back.
    Memory,
    /// 8: 2 ^ 64 - 1 times a link had its turn or the door was woken, and not all links are over.
    Spent,
}

/// How a run ended.
#[derive(Clone, Copy, Debug, PartialEq, Eq)]
pub enum Status {
    /// 1: the words are not of the grammar.
    Usage,
    /// 2: the log cannot be read, and this is why.
    UnreadableLog(Unreadable),
    /// 5: the disk failed in opening, and counted it.
    OpeningFault,
    /// 8: memory was wanted before a message was read.
    OutOfMemory,
    /// The one connection of a session ended so, and not well: 3, 4, 5, 8, 9, 11, 12 or 13.
    Session(ConnectionEnd),
    /// It ended well, and then the tasks that were left were run, which ended so: 0, 5, 6, 7, 8 or 9.
    Drained(Turn),
    /// Links were served: 0, 5, 6, 7, 8, 9 or 10.
    Serve(ServeEnd),
}

impl Status {
    /// The number of the status.
    pub fn code(self) -> u8
        ensures { result ≡ code_of self }
    {
        match self {
            Status::Usage => 1,
            Status::UnreadableLog(_) => 2,
            Status::OpeningFault => 5,
            Status::OutOfMemory => 8,
            Status::Session(ConnectionEnd::Ended) => 0,
            Status::Session(ConnectionEnd::Full) => 9,
            Status::Session(ConnectionEnd::SourceFault) => 3,
            Status::Session(ConnectionEnd::SinkFault) => 4,
            Status::Session(ConnectionEnd::Disk) => 5,
            Status::Session(ConnectionEnd::Memory) => 8,
            Status::Session(ConnectionEnd::Truncated) => 11,
            Status::Session(ConnectionEnd::Refused) => 12,
            Status::Session(ConnectionEnd::Many) => 13,
            Status::Drained(Turn::Idle) => 0,
            Status::Drained(Turn::SpawnFault) => 6,
            Status::Drained(Turn::NotYet) => 7,
            Status::Drained(Turn::Closed(_)) => 7,
            Status::Drained(Turn::Committed(_)) => 7,
            Status::Drained(Turn::Full) => 9,
            Status::Drained(Turn::Disk) => 5,
            Status::Drained(Turn::Memory) => 8,
            Status::Serve(ServeEnd::Served) => 0,
            Status::Serve(ServeEnd::TasksFailed) => 6,
            Status::Serve(ServeEnd::TasksPending) => 7,
            Status::Serve(ServeEnd::LogFull) => 9,
            Status::Serve(ServeEnd::Disk) => 5,
            Status::Serve(ServeEnd::Memory) => 8,
            Status::Serve(ServeEnd::NoLink) => 10,
            Status::Serve(ServeEnd::Spent) => 8,
        }
    }
}
