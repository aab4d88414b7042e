//! A drill by its words, over files and standard output.
ghost use Rattle.std.specs.Prelude.{◌≤◌, IfSome};
ghost use Rattle.mt_base.specs.declared.limits.TheConstants.{LAST_MOMENT};

use crate::tell::{tell_drill, tell_status};
use mt_adapters::{FileDisk, StdSink, SystemClock};
use mt_drill::{DrillWords, WordsError, drill};
use mt_edge::FixedClock;
use std::alloc::AllocError;

// Runs a drill over the files of a store, at one moment or by the system's time.
fn drill_on_files(rt: HostRuntime, asked: &DrillWords) -> Result<u8, AllocError>
    requires count { asked.now.count ≤ 10000 }
    requires moment { IfSome asked.now.at (λ moment. moment ≤ LAST_MOMENT) }
{
    let alloc = rt.alloc();
    let store = asked.store.as_str();
    let mut disk = FileDisk::new(alloc, rt, store)?.telling(true);
    let mut sink = StdSink::over(rt.stdout());
    let count = asked.count;
    let end = match asked.at {
        Some(moment) => drill(
            alloc,
            count,
            &mut sink,
            &mut disk,
            &mut FixedClock::new(moment),
        ),
        None => drill(
            alloc,
            count,
            &mut sink,
            &mut disk,
            &mut SystemClock::new(rt),
        ),
    };
    tell_status(&rt, end.code(), store, disk.failure());
    Ok(end.code())
}

/// Runs the drill that the words behind its command ask for, and gives its status; `None` where they ask for nothing, which is said.
pub(crate) fn run_drill(rt: HostRuntime, words: &[String]) -> Result<Option<u8>, AllocError> {
    match DrillWords::read(rt.alloc(), words) {
        Ok(asked) => Ok(Some(drill_on_files(rt, &asked)?)),
        Err(WordsError::Words(fault)) => {
            tell_drill(&rt, words, fault);
            Ok(None)
        }
        Err(WordsError::Memory) => Err(AllocError),
    }
}
