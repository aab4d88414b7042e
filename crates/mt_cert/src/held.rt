//! What the values of a job keep by their types: texts are texts, numbers have 64 bits, and digests 16 bytes. These walks look
//! at values and change none.
ghost use Rattle.std.specs.Prelude.{◌≡◌, ◌<◌, ◌^◌, IfOk, OnOk, length};
ghost use Rattle.std.specs.List.{AllByRecursion};
ghost use Rattle.mt_ident.specs.Digests.{IsDigest};
ghost use Rattle.mt_model.specs.Types.{Body};
ghost use Rattle.mt_certline.specs.Laws.{IsOfTexts};
ghost use Rattle.mt_cert.specs.Accepting.{IsHeld, IsSum};
ghost use Rattle.mt_cert.specs.Certifying.{sum_of_body};
ghost use Rattle.mt_cert.specs.Seen.{AreSums, IsSeenEntry, IsSeenTrace};

use crate::shares::items_of;
use mt_types::{Body, Item, Job, Phase, TraceEntry};
use std::alloc::AllocError;

// The command lines of a phase are texts.
fn see_phase(phase: &Phase)
    ensures { IsOfTexts phase.now }
{
    let _exec = phase.exec.as_str();
    if let Some(init) = &phase.init {
        let _init = init.as_str();
    }
}

// Those of all phases are.
fn see_phases(phases: &[Phase])
    ensures { AllByRecursion IsOfTexts phases.now }
{
    for phase in phases {
        see_phase(phase);
    }
}

// Sixteen bytes are a digest.
fn see_digest(md5: [u8; 16])
    ensures { IsDigest md5 }
{}

// A body is known by a digest and a number.
fn see_body(body: &Body)
    ensures { IsSum (sum_of_body body.now) }
{
    let _len = body.len;
    see_digest(body.md5);
}

// So are those of items.
fn see_items(items: &[Item<Body>])
    ensures { AreSums items.now }
{
    for item in items {
        see_body(&item.body);
    }
}

// The numbers of a committed task, and its outputs.
fn see_entry(entry: &TraceEntry<Body>)
    ensures { IsSeenEntry entry.now }
{
    let _phase = entry.phase;
    let _place = entry.place;
    see_items(items_of(&entry.outcome));
}

// Those of all; and how many outputs there are. It fails where they are not below 2^64, which no memory holds.
fn see_trace(trace: &[TraceEntry<Body>]) -> Result<u64, AllocError>
    ensures { IfOk result (IsSeenTrace trace.now) }
{
    let mut count: u64 = 0;
    for entry in trace {
        see_entry(entry);
        let more = items_of(&entry.outcome).len() as u64;
        let Some(sum) = count.checked_add(more) else {
            return Err(AllocError);
        };
        count = sum;
    }
    Ok(count)
}

/// What a job keeps by the types of its values, as the laws of certificates ask it. It fails for want of memory alone.
pub(crate) fn see(job: &Job<Body>) -> Result<(), AllocError>
    ensures { OnOk result (IsHeld Body sum_of_body job.now) }
{
    see_phases(job.document.phases.as_slice());
    see_items(job.inputs.as_slice());
    let _inputs = job.inputs.len();
    see_trace(job.trace.as_slice())?;
    Ok(())
}
