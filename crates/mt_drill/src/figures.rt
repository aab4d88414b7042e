//! The parts of the line of a drill, read from an engine.
ghost use Rattle.std.specs.Prelude.{◌≡◌, ◌<◌, ◌++◌, length, true, Err, IfSome, OnOk, Some, option_copied, option_map};
ghost use Rattle.std.specs.List.{find};
ghost use Rattle.std.specs.Option.{ForSome};
ghost use Rattle.mt_body.specs.Stored.{IsStored, bytes_of};
ghost use Rattle.mt_opening.specs.Looking.{LogIsThere, OnlyReads};
ghost use Rattle.mt_gen.specs.Messages.{job_number};
ghost use Rattle.mt_log.specs.LogState.{told};
ghost use Rattle.mt_model.specs.Bodies.{OfJob};
ghost use Rattle.mt_model.specs.Finished.{is_finished};
ghost use Rattle.mt_model.specs.State.{job_at};
ghost use Rattle.mt_types.specs.Values.{job_with};
ghost use Rattle.mt_drill.specs.DrillLine.{counts_text, figure, figures, first_body, given_by, is_of_reducer};

use crate::end::Stopped;
use crate::text::{put_number, put_words};
use mt_disk::Disk;
use mt_engine::Engine;
use mt_types::{Body, Job, Outcome, TraceEntry};
use std::alloc::AllocError;

/// A body of a drill's output has no more bytes than a number and a line feed.
const LONGEST_BODY: usize = 21;

/// The phase of the reducers.
const REDUCE_PHASE: u32 = 1;

/// The job of a drill of so many objects, where it is done.
pub(crate) fn finished_job(engine: &Engine, count: u32) -> Option<&Job<Body>>
    ensures { IfSome result (λ j. (job_at engine.now.state.jobs (job_number count) ≡ Some j.now) × (is_finished j.now ≡ true)) }
{
    let job = engine.jobs().get((16 + count as u64) * 4096)?;
    if job.done.is_some() && !job.cancelled {
        Some(job)
    } else {
        None
    }
}

// The body of the first output.
fn first_body(outcome: &Outcome<Body>) -> Option<&Body>
    ensures { option_copied result ≡ first_body outcome.now }
{
    match outcome {
        Outcome::Good(items) => match items.as_slice() {
            [first, ..] => Some(&first.body),
            [] => None,
        },
        Outcome::Bad { .. } => None,
    }
}

// The entry of the reducer of a number.
fn entry_of(trace: &[TraceEntry<Body>], reducer: u64) -> Option<&TraceEntry<Body>>
    ensures { option_copied result ≡ find (is_of_reducer reducer) trace.now }
{
    trace.iter().find(|entry| entry.phase == REDUCE_PHASE && entry.place == reducer)
}

// The body that the reducer of a number gave.
fn given_by(job: &Job<Body>, reducer: u64) -> Option<&Body>
    ensures { option_copied result ≡ given_by reducer job.now.trace }
{
    match entry_of(job.trace.as_slice(), reducer) {
        Some(entry) => first_body(&entry.outcome),
        None => None,
    }
}

/// Appends the front of the line: the objects, the requests, the commands and the tasks.
pub(crate) fn put_counts(
    out: &mut Vec<u8>,
    count: u32,
    replies: u64,
    commands: u64,
    tasks: u64,
) -> Result<(), AllocError>
    ensures { OnOk result (out.new.items ≡ out.old.items ++ counts_text count replies commands tasks) }
{
    put_number(out, b"drill ", count as u64)?;
    put_number(out, b": requests ", replies)?;
    put_number(out, b", commands ", commands)?;
    put_number(out, b", tasks ", tasks)?;
    put_words(out, b", lines")?;
    Ok(())
}

// Reads a body into a piece of its length, and appends a blank and the line that it is, without its line feed.
fn put_read<D: Disk>(
    out: &mut Vec<u8>,
    engine: &Engine,
    disk: &mut D,
    body: &Body,
    into: &mut [u8],
) -> Result<(), Stopped>
    requires there { LogIsThere D.seen disk.old engine.now.log }
    requires stored { ForSome (told (D.seen disk.old)) (λ ps. IsStored ps body.now) }
    requires len { (length into.old ≡ body.now.len) × (0 < body.now.len) }
    ensures figure { OnOk result (ForSome (told (D.seen disk.old)) (λ ps. out.new.items ≡ out.old.items ++ figure (Some (bytes_of ps body.now)))) }
    ensures reads { OnlyReads D.seen D.may_leave D.moment D.left_since D.faults disk.old disk.new (result ≡ Err Stopped.Disk) }
{
    engine.read_body(disk, body, 0, into)?;
    put_words(out, b" ")?;
    put_words(out, &into[..into.len() - 1])?;
    Ok(())
}

// Appends a blank and the line that a body is, without its line feed.
fn put_figure<D: Disk>(
    out: &mut Vec<u8>,
    engine: &Engine,
    disk: &mut D,
    body: &Body,
) -> Result<(), Stopped>
    requires there { LogIsThere D.seen disk.old engine.now.log }
    requires stored { ForSome (told (D.seen disk.old)) (λ ps. IsStored ps body.now) }
    ensures figure { OnOk result (ForSome (told (D.seen disk.old)) (λ ps. out.new.items ≡ out.old.items ++ figure (Some (bytes_of ps body.now)))) }
    ensures reads { OnlyReads D.seen D.may_leave D.moment D.left_since D.faults disk.old disk.new (result ≡ Err Stopped.Disk) }
{
    let len = body.len as usize;
    if len == 0 || len > LONGEST_BODY {
        return Err(Stopped::Memory);
    }
    let mut buffer = [0u8; LONGEST_BODY];
    put_read(out, engine, disk, body, &mut buffer[..len])
}

// Appends what the reducer of a number gave.
fn put_given<D: Disk>(
    out: &mut Vec<u8>,
    engine: &Engine,
    disk: &mut D,
    job: &Job<Body>,
    reducer: u64,
) -> Result<(), Stopped>
    requires there { LogIsThere D.seen disk.old engine.now.log }
    requires stored { ForSome (told (D.seen disk.old)) (λ ps. OfJob (IsStored ps) job.now) }
    ensures figure { OnOk result (ForSome (told (D.seen disk.old)) (λ ps. out.new.items ≡ out.old.items ++ figure (option_map (bytes_of ps) (given_by reducer job.now.trace)))) }
    ensures reads { OnlyReads D.seen D.may_leave D.moment D.left_since D.faults disk.old disk.new (result ≡ Err Stopped.Disk) }
{
    let Some(body) = given_by(job, reducer) else {
        return Err(Stopped::Memory);
    };
    put_figure(out, engine, disk, body)?;
    Ok(())
}

/// Appends what each of the four reducers gave.
pub(crate) fn put_figures<D: Disk>(
    out: &mut Vec<u8>,
    engine: &Engine,
    disk: &mut D,
    job: &Job<Body>,
) -> Result<(), Stopped>
    requires there { LogIsThere D.seen disk.old engine.now.log }
    requires stored { ForSome (told (D.seen disk.old)) (λ ps. OfJob (IsStored ps) job.now) }
    ensures figures { OnOk result (ForSome (told (D.seen disk.old)) (λ ps. out.new.items ≡ out.old.items ++ figures (job_with (bytes_of ps) job.now))) }
    ensures reads { OnlyReads D.seen D.may_leave D.moment D.left_since D.faults disk.old disk.new (result ≡ Err Stopped.Disk) }
{
    put_given(out, engine, disk, job, 0)?;
    put_given(out, engine, disk, job, 1)?;
    put_given(out, engine, disk, job, 2)?;
    put_given(out, engine, disk, job, 3)?;
    Ok(())
}
