//! The check of a certificate.
ghost use Rattle.std.specs.Prelude.{◌≡◌, IfOk};
ghost use Rattle.mt_checker.specs.Sources.{Checks, HasCause, HasHalted, HasTold, IsEndOf, JudgesTo, Tells, verdict_line, verdict_of};

use crate::checker::Checker;
use crate::judging::{Halt, Judged, judge_lines};
use mt_bytes::put_decimal;
use mt_edge::{Sink, SinkFault, Source, write_all};
use std::alloc::{AllocError, Global};

/// The bytes that are read at once.
const PIECE: usize = 65_536;

/// How a check ended.
#[derive(Clone, Copy, Debug, PartialEq, Eq)]
pub enum CheckEnd {
    /// The source was a certificate that adds up.
    Accepted,
    /// The line of this number, counted from 1, is the first that is wrong; where no line is and the certificate has not ended,
    /// it is one past the last.
    Refused(u64),
    /// The source failed before that was known.
    SourceFault,
    /// The sink failed before the verdict was written.
    SinkFault,
    /// Out of memory.
    Memory,
}

impl CheckEnd {
    ghost use Rattle.std.specs.Prelude.{◌≡◌};
    ghost use Rattle.mt_checker.specs.Sources.{code_of};

    /// The exit status of a program that ends so.
    pub fn code(self) -> u8
        ensures { result ≡ code_of self }
    {
        match self {
            CheckEnd::Accepted => 0,
            CheckEnd::SourceFault => 3,
            CheckEnd::SinkFault => 4,
            CheckEnd::Memory => 8,
            CheckEnd::Refused(_) => 15,
        }
    }
}

// The line that a verdict is told by.
fn verdict_text(alloc: Global, judged: Judged) -> Result<Vec<u8>, AllocError>
    ensures { IfOk result (λ t. t.items ≡ verdict_line (verdict_of judged)) }
{
    let mut text = Vec::new(alloc);
    match judged {
        Judged::Accepted => text.extend_from_slice(b"accepted")?,
        Judged::Refused(number) => {
            text.extend_from_slice(b"refused at ")?;
            put_decimal(&mut text, number)?;
        }
    }
    text.push(b'\n')?;
    Ok(text)
}

// How a check ended whose verdict was written.
fn end_of(judged: Judged) -> CheckEnd
    ensures { IsEndOf (verdict_of judged) result }
{
    match judged {
        Judged::Accepted => CheckEnd::Accepted,
        Judged::Refused(number) => CheckEnd::Refused(number),
    }
}

// Tells a verdict.
fn tell<K: Sink>(alloc: Global, sink: &mut K, judged: Judged) -> CheckEnd
    ensures tells { Tells (verdict_of judged) result (K.got sink.old) (K.got sink.new) }
    ensures cause { HasTold result (K.write_faults sink.old) (K.write_faults sink.new) }
    ensures stays { K.sink_stays sink.old sink.new }
{
    let Ok(text) = verdict_text(alloc, judged) else {
        return CheckEnd::Memory;
    };
    match write_all(sink, &text) {
        Ok(()) => end_of(judged),
        Err(SinkFault) => CheckEnd::SinkFault,
    }
}

// The judgement on what is left of a source.
fn judge_source<S: Source>(alloc: Global, login: &str, source: &mut S) -> Result<Judged, Halt>
    ensures judges { JudgesTo login.now result (S.left source.old) (S.left source.new) }
    ensures faults { HasHalted result (S.read_faults source.old) (S.read_faults source.new) }
    ensures stays { S.source_stays source.old source.new }
{
    let Ok(mut checker) = Checker::new(alloc, login) else {
        return Err(Halt::Memory);
    };
    let Ok(mut buffer) = vec![in alloc; 0u8; PIECE] else {
        return Err(Halt::Memory);
    };
    judge_lines(alloc, &mut checker, source, &mut buffer)
}

/// Checks the certificate that is left of a source, for the account of this login: it says to the sink `accepted`, or `refused
/// at K` where the line of that number is the first that is wrong. It keeps one line, a byte for each place of a phase, what a
/// reduce phase reads, and the names of the outputs.
pub fn check<S: Source, K: Sink>(
    alloc: Global,
    login: &str,
    source: &mut S,
    sink: &mut K,
) -> CheckEnd
    ensures checks { Checks login.now result (S.left source.old) (S.left source.new) (K.got sink.old) (K.got sink.new) }
    ensures cause { HasCause result (S.read_faults source.old) (S.read_faults source.new) (K.write_faults sink.old) (K.write_faults sink.new) }
    ensures source_stays { S.source_stays source.old source.new }
    ensures sink_stays { K.sink_stays sink.old sink.new }
{
    match judge_source(alloc, login, source) {
        Ok(judged) => tell(alloc, sink, judged),
        Err(Halt::SourceFault) => CheckEnd::SourceFault,
        Err(Halt::Memory) => CheckEnd::Memory,
    }
}
