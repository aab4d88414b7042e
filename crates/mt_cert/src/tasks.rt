//! The lines of committed tasks.
ghost use Rattle.std.specs.Prelude.{◌≡◌, [], ◌∷◌, IfOk, map, length};
ghost use Rattle.mt_types.specs.Values.{job_with};
ghost use Rattle.mt_types.specs.WellMade.{HasReducers, IsDocument};
ghost use Rattle.mt_certline.specs.Certificate.{listed_in};
ghost use Rattle.mt_certline.specs.declared.line.Line.TheVariants.{Task};
ghost use Rattle.mt_feeds.specs.FedJob.{lists_of};
ghost use Rattle.mt_cert.specs.Certifying.{sum_of_body};
ghost use Rattle.mt_cert.specs.Putting.{PutsTo, out_at};
ghost use Rattle.mt_cert.specs.Reading.{certificate_in, listed_by, reads_by, task_lines};

use crate::known::known_outputs;
use crate::page::{Halt, Page, put_line};
use crate::shares::{Opened, open};
use mt_base::Sequence;
use mt_certline::{Line, Listed};
use mt_edge::Sink;
use mt_types::{Body, Job, Phase, PhaseKind, TraceEntry};
use std::alloc::{AllocError, Global};

// One place.
fn only(alloc: Global, place: u64) -> Result<Sequence<u64>, AllocError>
    ensures { IfOk result (λ s. s ≡ place ∷ []) }
{
    let mut places = Vec::new(alloc);
    places.push(place)?;
    Ok(Sequence::from_vec(places))
}

// A copy of these places.
fn places(alloc: Global, share: &[u64]) -> Result<Sequence<u64>, AllocError>
    ensures { IfOk result (λ s. s ≡ share.now) }
{
    Ok(Sequence::from_vec(Vec::from_slice(alloc, share)?))
}

// The places that a task reads.
fn reads(alloc: Global, opened: &Opened, place: u64) -> Result<Sequence<u64>, AllocError>
    ensures { IfOk result (λ s. s ≡ reads_by opened.now.kind (lists_of opened.now.shares) place) }
{
    match opened.kind {
        PhaseKind::Map => only(alloc, place),
        PhaseKind::Reduce { count: _ } => match opened.shares.get(place as usize) {
            Some(share) => places(alloc, share),
            None => Ok(Sequence::new(alloc)),
        },
    }
}

// A committed task as it is listed.
fn listed(alloc: Global, opened: &Opened, entry: &TraceEntry<Body>) -> Result<Listed, AllocError>
    ensures { IfOk result (λ l. l ≡ listed_by opened.now.kind (lists_of opened.now.shares) entry.now) }
{
    Ok(Listed {
        phase: u64::from(entry.phase),
        place: entry.place,
        position: entry.position,
        outputs: known_outputs(alloc, &entry.outcome)?,
        reads: reads(alloc, opened, entry.place)?,
    })
}

// Puts the line of a committed task.
fn put_task<K: Sink>(
    alloc: Global,
    login: &str,
    opened: &Opened,
    entry: &TraceEntry<Body>,
    page: &mut Page,
    sink: &mut K,
) -> Result<(), Halt>
    ensures puts { PutsTo login.now (Task (listed_by opened.now.kind (lists_of opened.now.shares) entry.now) ∷ []) result (out_at page.old (K.got sink.old) (K.write_faults sink.old)) (out_at page.new (K.got sink.new) (K.write_faults sink.new)) }
    ensures stays { K.sink_stays sink.old sink.new }
{
    match listed(alloc, opened, entry) {
        Ok(task) => put_line(alloc, login, &Line::Task(task), page, sink),
        Err(_) => Err(Halt::Memory),
    }
}

// Puts the lines of the tasks of a phase, in the order of their commits.
fn put_tasks<K: Sink>(
    alloc: Global,
    login: &str,
    opened: &Opened,
    trace: &[TraceEntry<Body>],
    page: &mut Page,
    sink: &mut K,
) -> Result<(), Halt>
    ensures puts { PutsTo login.now (task_lines opened.now trace.now) result (out_at page.old (K.got sink.old) (K.write_faults sink.old)) (out_at page.new (K.got sink.new) (K.write_faults sink.new)) }
    ensures stays { K.sink_stays sink.old sink.new }
{
    for entry in trace {
        if entry.phase == opened.phase {
            put_task(alloc, login, opened, entry, page, sink)?;
        }
    }
    Ok(())
}

// Puts the lines of a phase.
fn put_phase<K: Sink>(
    alloc: Global,
    login: &str,
    job: &Job<Body>,
    number: u32,
    phase: &Phase,
    page: &mut Page,
    sink: &mut K,
) -> Result<(), Halt>
    requires { HasReducers phase.now.kind }
    ensures puts { PutsTo login.now (map (λ l. Task l) (listed_in (job_with sum_of_body job.now) (number, phase.now))) result (out_at page.old (K.got sink.old) (K.write_faults sink.old)) (out_at page.new (K.got sink.new) (K.write_faults sink.new)) }
    ensures stays { K.sink_stays sink.old sink.new }
{
    match open(alloc, job, number, phase.kind) {
        Ok(opened) => put_tasks(alloc, login, &opened, job.trace.as_slice(), page, sink),
        Err(_) => Err(Halt::Memory),
    }
}

/// Puts the lines of all committed tasks, phase by phase.
pub(crate) fn put_phases<K: Sink>(
    alloc: Global,
    login: &str,
    job: &Job<Body>,
    page: &mut Page,
    sink: &mut K,
) -> Result<(), Halt>
    requires { IsDocument job.now.document }
    ensures puts { PutsTo login.now (map (λ l. Task l) (certificate_in job.now).tasks) result (out_at page.old (K.got sink.old) (K.write_faults sink.old)) (out_at page.new (K.got sink.new) (K.write_faults sink.new)) }
    ensures stays { K.sink_stays sink.old sink.new }
{
    let phases = job.document.phases.as_slice();
    for (index, phase) in phases.iter().enumerate() {
        put_phase(alloc, login, job, index as u32, phase, page, sink)?;
    }
    Ok(())
}
