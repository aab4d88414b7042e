//! How a drill ended, and the number that the program ends with.
ghost use Rattle.std.specs.Prelude.{◌≡◌, ◌⊎◌};
ghost use Rattle.mt_drill.specs.Ends.{code_of_drill};

use mt_disk::DiskFault;
use std::alloc::AllocError;

/// How a drill ended.
#[derive(Clone, Copy, Debug, PartialEq, Eq)]
pub enum DrillEnd {
    /// 0: the account was made and run, and its line stands in the sink.
    Done,
    /// 2: the log cannot be read. Its line stands in the sink, or a front of it where the sink failed.
    Unreadable,
    /// 4: the sink failed within the line of the account, and counted it.
    SinkFault,
    /// 5: the disk failed, and counted it.
    DiskFault,
    /// 14: the log has a record. Its line stands in the sink, or a front of it where the sink failed.
    NotEmpty,
    /// 8: memory was wanted; or the session of the drill did not end with 0, or its job is not done, which no drill has shown.
    Memory,
}

/// Why a drill of an empty log has no line.
#[derive(Clone, Copy, Debug, PartialEq, Eq)]
pub(crate) enum Stopped {
    /// The disk failed, and counted it.
    Disk,
    /// Out of memory, or what no drill has shown.
    Memory,
}

impl DrillEnd {
    /// The number of the end.
    pub fn code(self) -> u8
        ensures number { result ≡ code_of_drill self }
        ensures of_drill { (result ≡ 0) ⊎ (result ≡ 2) ⊎ (result ≡ 4) ⊎ (result ≡ 5) ⊎ (result ≡ 8) ⊎ (result ≡ 14) }
    {
        match self {
            DrillEnd::Done => 0,
            DrillEnd::Unreadable => 2,
            DrillEnd::SinkFault => 4,
            DrillEnd::DiskFault => 5,
            DrillEnd::NotEmpty => 14,
            DrillEnd::Memory => 8,
        }
    }
}

impl From<AllocError> for Stopped {
    ghost use Rattle.std.specs.Prelude.{◌≡◌};
    ghost use Rattle.mt_drill.specs.declared.end.Stopped.TheVariants as stopped;

    ghost from_gives = { λ _ e. e ≡ stopped.Memory };

    fn from(_: AllocError) -> Stopped {
        Stopped::Memory
    }
}

impl From<DiskFault> for Stopped {
    ghost use Rattle.std.specs.Prelude.{◌≡◌};
    ghost use Rattle.mt_drill.specs.declared.end.Stopped.TheVariants as stopped;

    ghost from_gives = { λ _ e. e ≡ stopped.Disk };

    fn from(_: DiskFault) -> Stopped {
        Stopped::Disk
    }
}
