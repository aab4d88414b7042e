//! Jobs and uploads with lists as long as their records say.
ghost use Rattle.std.specs.Prelude.{◌≡◌, IfOk};
ghost use Rattle.mt_snapshot.specs.Values.{job_record, upload_record};

use mt_rows::Stop;
use mt_snapshot::{JobRecord, UploadRecord};
use mt_types::{
    Area, Body, InputLine, Item, Items, Job, Lines, Outcome, PartRow, PartRows, Path, Text, Trace,
    TraceEntry, Upload,
};
use std::alloc::{AllocError, Global};

// A body without bytes.
fn no_body() -> Body {
    Body {
        first: 0,
        len: 0,
        md5: [0; 16],
    }
}

// An item that stands for any.
fn item(alloc: Global) -> Result<Item<Body>, AllocError> {
    Ok(Item {
        name: Path::root(alloc, Area::Stor),
        root: Text::from_str(alloc, "")?,
        body: no_body(),
        reducer: None,
    })
}

// So many items.
fn items(alloc: Global, n: u32) -> Result<Items<Body>, AllocError> {
    let mut list = Items::new(alloc);
    for _ in 0..n {
        list.push(item(alloc)?)?;
    }
    Ok(list)
}

// So many lines.
fn lines(alloc: Global, n: u32) -> Result<Lines, AllocError> {
    let mut list = Lines::new(alloc);
    for _ in 0..n {
        list.push(InputLine::Named(Path::root(alloc, Area::Stor)))?;
    }
    Ok(list)
}

// So many committed tasks.
fn trace(alloc: Global, n: u64) -> Result<Trace<Body>, AllocError> {
    let mut list = Trace::new(alloc);
    for _ in 0..n {
        list.push(TraceEntry {
            phase: 0,
            place: 0,
            position: 0,
            outcome: Outcome::Good(Items::new(alloc)),
        })?;
    }
    Ok(list)
}

// So many parts.
fn parts(alloc: Global, n: u16) -> Result<PartRows<Body>, AllocError> {
    let mut list = PartRows::new(alloc);
    for _ in 0..n {
        list.push(PartRow {
            index: 0,
            number: 0,
            body: no_body(),
        })?;
    }
    Ok(list)
}

/// The job of a record, its lists of values that stand for any.
pub fn job_of(alloc: Global, kept: JobRecord<Body>) -> Result<Job<Body>, Stop>
    ensures { IfOk result (λ job. job_record job ≡ kept) }
{
    let inputs = items(alloc, kept.inputs)?;
    let missing = lines(alloc, kept.missing)?;
    let trace = trace(alloc, kept.entries)?;
    if inputs.len() != kept.inputs as usize
        || missing.len() != kept.missing as usize
        || trace.len() as u64 != kept.entries
    {
        return Err(Stop::NoSuchRow);
    }
    Ok(Job {
        number: kept.number,
        document: kept.document,
        assets: kept.assets,
        inputs,
        missing,
        ended: kept.ended,
        cancelled: kept.cancelled,
        created: kept.created,
        done: kept.done,
        trace,
    })
}

/// The upload of a record, its parts standing for any.
pub fn upload_of(alloc: Global, kept: UploadRecord) -> Result<Upload<Body>, Stop>
    ensures { IfOk result (λ upload. upload_record upload ≡ kept) }
{
    let parts = parts(alloc, kept.parts)?;
    if parts.len() != kept.parts as usize {
        return Err(Stop::NoSuchRow);
    }
    Ok(Upload {
        number: kept.number,
        path: kept.path,
        content_type: kept.content_type,
        moment: kept.moment,
        parts,
        stage: kept.stage,
    })
}
