//! What a task left is judged.
ghost use Rattle.std.specs.Prelude.{◌≡◌, Some};
ghost use Rattle.mt_base.specs.Counts.{NeverFell, Rose};
ghost use Rattle.mt_records.specs.declared.range.Range.{Range};
ghost use Rattle.mt_spawn.specs.Children.{SameLive};
ghost use Rattle.mt_tasks.specs.Fates.{IsJudged};
ghost use Rattle.mt_types.specs.declared.task.Fate.{Fate};

use crate::windows::{Looked, look};
use mt_records::{Judging, Range};
use mt_spawn::{Left, Spawner};
use mt_types::Fate;
use std::alloc::{AllocError, Global};

/// How what a task left was judged.
#[derive(Debug, PartialEq, Eq, Drop)]
pub(crate) enum Judged {
    /// This is its fate, over ranges of what is held.
    Fate(Fate<Range>),
    /// The spawner failed, and counted it.
    Failed,
    /// Out of memory.
    Memory,
}

/// Judges what is held, by the fronts and ends of its record files. No body is read.
pub(crate) fn judge<P: Spawner>(alloc: Global, login: &str, spawner: &mut P, left: Left) -> Judged
    requires held { P.held spawner.old ≡ Some left }
    ensures fate { (f : Fate Range) → result ≡ Judged.Fate f → IsJudged login.now left (P.told spawner.old) f }
    ensures failed { result ≡ Judged.Failed → Rose (P.seen spawner.old).faults (P.seen spawner.new).faults }
    ensures same { SameLive (P.seen spawner.old) (P.seen spawner.new) }
    ensures faults { NeverFell (P.seen spawner.old).faults (P.seen spawner.new).faults }
    ensures held { P.held spawner.new ≡ P.held spawner.old }
    ensures told { P.told spawner.new ≡ P.told spawner.old }
    ensures rule { P.rule spawner.new ≡ P.rule spawner.old }
{
    let Ok(mut judging) = Judging::new(alloc, login, left) else {
        return Judged::Memory;
    };
    while let Some(size) = judging.next() {
        match look(alloc, spawner, &mut judging, size) {
            Looked::Seen => {}
            Looked::Failed => return Judged::Failed,
            Looked::Memory => return Judged::Memory,
        }
    }
    match judging.fate(alloc) {
        Ok(fate) => Judged::Fate(fate),
        Err(AllocError) => Judged::Memory,
    }
}
