//! The lines of inputs and outputs.
ghost use Rattle.std.specs.Prelude.{◌≡◌, ◌∷◌, [], map};
ghost use Rattle.mt_types.specs.Values.{item_with};
ghost use Rattle.mt_types.specs.WellMade.{IsDocument};
ghost use Rattle.mt_certline.specs.declared.line.Line.TheVariants.{Input, Output};
ghost use Rattle.mt_cert.specs.Certifying.{sum_of_body};
ghost use Rattle.mt_cert.specs.Putting.{PutsTo, out_at};
ghost use Rattle.mt_cert.specs.Reading.{certificate_in, given_lines, input_lines, output_lines};

use crate::known::known_item;
use crate::page::{Halt, Page, put_line};
use crate::shares::items_of;
use mt_base::Duplicate;
use mt_certline::Line;
use mt_edge::Sink;
use mt_path::Path;
use mt_types::{Body, Item, Job, TraceEntry};
use std::alloc::Global;

// Puts the line of an input.
fn put_input<K: Sink>(
    alloc: Global,
    login: &str,
    item: &Item<Body>,
    page: &mut Page,
    sink: &mut K,
) -> Result<(), Halt>
    ensures puts { PutsTo login.now (Input (item_with sum_of_body item.now) ∷ []) result (out_at page.old (K.got sink.old) (K.write_faults sink.old)) (out_at page.new (K.got sink.new) (K.write_faults sink.new)) }
    ensures stays { K.sink_stays sink.old sink.new }
{
    match known_item(alloc, item) {
        Ok(known) => put_line(alloc, login, &Line::Input(known), page, sink),
        Err(_) => Err(Halt::Memory),
    }
}

/// Puts the lines of inputs.
pub(crate) fn put_inputs<K: Sink>(
    alloc: Global,
    login: &str,
    items: &[Item<Body>],
    page: &mut Page,
    sink: &mut K,
) -> Result<(), Halt>
    ensures puts { PutsTo login.now (input_lines items.now) result (out_at page.old (K.got sink.old) (K.write_faults sink.old)) (out_at page.new (K.got sink.new) (K.write_faults sink.new)) }
    ensures stays { K.sink_stays sink.old sink.new }
{
    for item in items {
        put_input(alloc, login, item, page, sink)?;
    }
    Ok(())
}

// Puts the line of an output.
fn put_name<K: Sink>(
    alloc: Global,
    login: &str,
    name: &Path,
    page: &mut Page,
    sink: &mut K,
) -> Result<(), Halt>
    ensures puts { PutsTo login.now (Output name.now ∷ []) result (out_at page.old (K.got sink.old) (K.write_faults sink.old)) (out_at page.new (K.got sink.new) (K.write_faults sink.new)) }
    ensures stays { K.sink_stays sink.old sink.new }
{
    match name.copy(alloc) {
        Ok(name) => put_line(alloc, login, &Line::Output(name), page, sink),
        Err(_) => Err(Halt::Memory),
    }
}

// Puts the lines of outputs.
fn put_names<K: Sink>(
    alloc: Global,
    login: &str,
    items: &[Item<Body>],
    page: &mut Page,
    sink: &mut K,
) -> Result<(), Halt>
    ensures puts { PutsTo login.now (output_lines items.now) result (out_at page.old (K.got sink.old) (K.write_faults sink.old)) (out_at page.new (K.got sink.new) (K.write_faults sink.new)) }
    ensures stays { K.sink_stays sink.old sink.new }
{
    for item in items {
        put_name(alloc, login, &item.name, page, sink)?;
    }
    Ok(())
}

// Puts the lines of what the tasks of a phase gave.
fn put_given<K: Sink>(
    alloc: Global,
    login: &str,
    phase: u32,
    trace: &[TraceEntry<Body>],
    page: &mut Page,
    sink: &mut K,
) -> Result<(), Halt>
    ensures puts { PutsTo login.now (given_lines phase trace.now) result (out_at page.old (K.got sink.old) (K.write_faults sink.old)) (out_at page.new (K.got sink.new) (K.write_faults sink.new)) }
    ensures stays { K.sink_stays sink.old sink.new }
{
    for entry in trace {
        if entry.phase == phase {
            put_names(alloc, login, items_of(&entry.outcome), page, sink)?;
        }
    }
    Ok(())
}

/// Puts the lines of the outputs of a job: what its last phase gave.
pub(crate) fn put_outputs<K: Sink>(
    alloc: Global,
    login: &str,
    job: &Job<Body>,
    page: &mut Page,
    sink: &mut K,
) -> Result<(), Halt>
    requires { IsDocument job.now.document }
    ensures puts { PutsTo login.now (map (λ p. Output p) (certificate_in job.now).outputs) result (out_at page.old (K.got sink.old) (K.write_faults sink.old)) (out_at page.new (K.got sink.new) (K.write_faults sink.new)) }
    ensures stays { K.sink_stays sink.old sink.new }
{
    let last = job.document.phases.len() - 1;
    put_given(alloc, login, last as u32, job.trace.as_slice(), page, sink)
}
