//! The certificate of a job is written.
ghost use Rattle.std.specs.Prelude.{◌≡◌, ◌<◌, ◌^◌, ◌∷◌, [], OnOk};
ghost use Rattle.mt_types.specs.WellMade.{IsDocument};
ghost use Rattle.mt_certline.specs.Certificate.{lines_of};
ghost use Rattle.mt_certline.specs.declared.line.Line.TheVariants.{Begin};
ghost use Rattle.mt_checker.specs.Texts.{certificate_text};
ghost use Rattle.mt_cert.specs.Putting.{PutsTo, out_at};
ghost use Rattle.mt_cert.specs.Reading.{certificate_in};
ghost use Rattle.mt_cert.specs.Writing.{WritesText};

use crate::names::{put_inputs, put_outputs};
use crate::page::{Halt, Page, no_lines, put_line, send};
use crate::tasks::put_phases;
use mt_base::Duplicate;
use mt_certline::Line;
use mt_edge::Sink;
use mt_types::{Body, Job};
use std::alloc::Global;

/// How far a certificate was written.
#[derive(Clone, Copy, Debug, PartialEq, Eq)]
pub enum Written {
    /// Whole.
    Whole,
    /// A front of it: the sink has failed.
    SinkFault,
    /// A front of it: out of memory.
    Memory,
}

// Puts the first line.
fn put_begin<K: Sink>(
    alloc: Global,
    login: &str,
    job: &Job<Body>,
    page: &mut Page,
    sink: &mut K,
) -> Result<(), Halt>
    requires { job.now.number < 2 ^ 62 }
    ensures puts { PutsTo login.now (Begin job.now.number job.now.document.phases ∷ []) result (out_at page.old (K.got sink.old) (K.write_faults sink.old)) (out_at page.new (K.got sink.new) (K.write_faults sink.new)) }
    ensures stays { K.sink_stays sink.old sink.new }
{
    match job.document.phases.copy(alloc) {
        Ok(phases) => {
            let number = job.number;
            put_line(alloc, login, &Line::Begin { number, phases }, page, sink)
        }
        Err(_) => Err(Halt::Memory),
    }
}

/// Puts all lines of the certificate of a job.
pub(crate) fn put_certificate<K: Sink>(
    alloc: Global,
    login: &str,
    job: &Job<Body>,
    page: &mut Page,
    sink: &mut K,
) -> Result<(), Halt>
    requires number { job.now.number < 2 ^ 62 }
    requires document { IsDocument job.now.document }
    ensures puts { PutsTo login.now (lines_of (certificate_in job.now)) result (out_at page.old (K.got sink.old) (K.write_faults sink.old)) (out_at page.new (K.got sink.new) (K.write_faults sink.new)) }
    ensures stays { K.sink_stays sink.old sink.new }
{
    put_begin(alloc, login, job, page, sink)?;
    put_inputs(alloc, login, job.inputs.as_slice(), page, sink)?;
    put_phases(alloc, login, job, page, sink)?;
    put_outputs(alloc, login, job, page, sink)?;
    put_line(alloc, login, &Line::End, page, sink)
}

// The same, and then sends what is left in the page.
fn put_whole<K: Sink>(
    alloc: Global,
    login: &str,
    job: &Job<Body>,
    page: &mut Page,
    sink: &mut K,
) -> Result<(), Halt>
    requires number { job.now.number < 2 ^ 62 }
    requires document { IsDocument job.now.document }
    ensures puts { PutsTo login.now (lines_of (certificate_in job.now)) result (out_at page.old (K.got sink.old) (K.write_faults sink.old)) (out_at page.new (K.got sink.new) (K.write_faults sink.new)) }
    ensures empty { OnOk result (page.new.text.items ≡ []) }
    ensures stays { K.sink_stays sink.old sink.new }
{
    put_certificate(alloc, login, job, page, sink)?;
    send(page, sink)
}

/// Writes the certificate of a job, line by line, in writes of 65,536 bytes and a line at most. It holds a page, one line, and of
/// a reduce phase a number for each item that it reads. `certificate_fits` says before whether its lines are within the limits.
pub fn write_certificate<K: Sink>(
    alloc: Global,
    login: &str,
    job: &Job<Body>,
    sink: &mut K,
) -> Written
    requires number { job.now.number < 2 ^ 62 }
    requires document { IsDocument job.now.document }
    ensures writes { WritesText (certificate_text login.now (certificate_in job.now)) result (K.got sink.old) (K.write_faults sink.old) (K.got sink.new) (K.write_faults sink.new) }
    ensures stays { K.sink_stays sink.old sink.new }
{
    let mut page = no_lines(alloc);
    match put_whole(alloc, login, job, &mut page, sink) {
        Ok(()) => Written::Whole,
        Err(Halt::SinkFault) => Written::SinkFault,
        Err(Halt::Memory) => Written::Memory,
    }
}
