//! The judgement on the lines of a source.
ghost use Rattle.std.specs.Prelude.{◌≡◌, ◌<◌, Option, Some, length};
ghost use Rattle.mt_checker.specs.Judge.{ended_at};
ghost use Rattle.mt_checker.specs.Kept.{Keeps, Says, stage_after};
ghost use Rattle.mt_checker.specs.Sources.{HasHalted, JudgesTo, verdict_of};
ghost use Rattle.mt_checker.specs.Stages.{Beginning, Stage};

use crate::checker::{Checked, Checker};
use crate::limits::MOST_LINES;
use crate::lines::{LineRead, read_text};
use mt_edge::{ReadStep, Source};
use std::alloc::Global;

/// The judgement on lines.
#[derive(Clone, Copy)]
pub(crate) enum Judged {
    /// They are those of a certificate that adds up.
    Accepted,
    /// The line of this number, counted from 1, is the first that is wrong.
    Refused(u64),
}

/// Why there is none.
#[derive(Clone, Copy)]
pub(crate) enum Halt {
    /// The source failed.
    SourceFault,
    /// Out of memory.
    Memory,
}

// The judgement where the lines end before the one of this number.
fn ended(checker: &Checker, number: u64) -> Judged
    ensures { (s : Stage) → Keeps checker.now.state (Some s) → verdict_of result ≡ ended_at number s }
{
    if checker.is_done() {
        Judged::Accepted
    } else {
        Judged::Refused(number)
    }
}

// A line more.
fn take_line(alloc: Global, checker: &mut Checker, line: &Vec<u8>) -> Checked
    ensures login { checker.new.login ≡ checker.old.login }
    ensures says { (s : Option Stage) → Keeps checker.old.state s → Says result (stage_after checker.old.login s line.now.items) checker.new.state }
{
    checker.line(alloc, line)
}

/// The judgement on the lines that are left of a source, by a checker that has seen none. The first line that is wrong is not
/// read on behind the limit of a line, and nothing behind it is.
pub(crate) fn judge_lines<S: Source>(
    alloc: Global,
    checker: &mut Checker,
    source: &mut S,
    buffer: &mut [u8],
) -> Result<Judged, Halt>
    requires room { 0 < length buffer.old }
    requires keeps { Keeps checker.old.state (Some Beginning) }
    ensures judges { JudgesTo checker.old.login result (S.left source.old) (S.left source.new) }
    ensures faults { HasHalted result (S.read_faults source.old) (S.read_faults source.new) }
    ensures stays { S.source_stays source.old source.new }
{
    let mut line = Vec::new(alloc);
    let mut number = 1;
    'lines: while number <= MOST_LINES {
        match read_text(source, buffer, &mut line) {
            LineRead::Whole => match take_line(alloc, checker, &line) {
                Checked::Going => number += 1,
                Checked::Accepted => number += 1,
                Checked::Refused => return Ok(Judged::Refused(number)),
                Checked::Memory => return Err(Halt::Memory),
            },
            LineRead::Unended => return Ok(Judged::Refused(number)),
            LineRead::Nothing => return Ok(ended(checker, number)),
            LineRead::TooLong => return Ok(Judged::Refused(number)),
            LineRead::Failed => return Err(Halt::SourceFault),
            LineRead::Memory => return Err(Halt::Memory),
        }
    }
    match source.read(&mut buffer[..1]) {
        ReadStep::Took(_) => Ok(Judged::Refused(number)),
        ReadStep::End => Ok(ended(checker, number)),
        ReadStep::Failed => Err(Halt::SourceFault),
    }
}
