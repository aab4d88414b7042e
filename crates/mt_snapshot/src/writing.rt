//! Records of a snapshot, appended to a vector from what they list. Each body goes by the place that it has in the log that is written. On
//! an error, which is want of memory, what the vector holds is not said.
ghost use Rattle.std.specs.Prelude.{◌≡◌, ◌++◌, false, IsTrue, OnOk};
ghost use Rattle.mt_base.specs.Numbers.{big_endian_32, big_endian_64};
ghost use Rattle.mt_types.specs.Limits.{is_content_type};
ghost use Rattle.mt_types.specs.Values.{entry_with, object_with, trace_entry_with};
ghost use Rattle.mt_codec.specs.Fields.{optional_spelling, text_spelling};
ghost use Rattle.mt_codec.specs.Spelling.{FitsDocument, FitsLine, byte_spelling, document_spelling, flag_number};
ghost use Rattle.mt_snapshot.specs.declared.record.SnapshotRecord.TheVariants as listed;
ghost use Rattle.mt_snapshot.specs.Records.{FitsEntry, FitsItem, FitsJob, FitsObject, FitsTrace, FitsUpload, entry_spelling, object_spelling, snapshot_spelling, stage_number, trace_spelling};
ghost use Rattle.mt_snapshot.specs.Values.{job_record, moved, snapshot_with, upload_record};

use crate::lists::{put_assets, put_item, put_moved, put_outcome};
use crate::moves::Moves;
use mt_bytes::{put_u8, put_u16, put_u32, put_u64};
use mt_codec::fields::{
    put_content_type, put_document, put_durability, put_line, put_metadata, put_path,
};
use mt_types::{
    Body, Entry, InputLine, Item, Job, Object, PartRow, Path, Stage, TraceEntry, Upload,
};
use std::alloc::AllocError;

// Four numbers of eight bytes.
fn put_counts(
    out: &mut Vec<u8>,
    count: u64,
    rows: u64,
    jobs: u64,
    uploads: u64,
) -> Result<(), AllocError>
    ensures { OnOk result (out.new.items ≡ out.old.items ++ (big_endian_64 count ++ big_endian_64 rows ++ big_endian_64 jobs ++ big_endian_64 uploads)) }
{
    put_u64(out, count)?;
    put_u64(out, rows)?;
    put_u64(out, jobs)?;
    put_u64(out, uploads)
}

/// How much follows: the number of commands so far, of rows but the roots, of jobs and of uploads.
#[tactic(auto, unfolding(crate::specs::Records::snapshot_spelling))]
pub fn put_begin(
    out: &mut Vec<u8>,
    count: u64,
    rows: u64,
    jobs: u64,
    uploads: u64,
) -> Result<(), AllocError>
    ensures { OnOk result (out.new.items ≡ out.old.items ++ snapshot_spelling (listed.Begin count rows jobs uploads)) }
{
    put_u8(out, 64)?;
    put_counts(out, count, rows, jobs, uploads)
}

// The fields of an object before its metadata.
fn put_said(out: &mut Vec<u8>, object: &Object<Body>) -> Result<(), AllocError>
    requires { IsTrue (is_content_type object.now.content_type) }
    ensures { OnOk result (out.new.items ≡ out.old.items ++ (big_endian_64 object.now.number ++ big_endian_64 object.now.mtime
        ++ text_spelling object.now.content_type ++ optional_spelling byte_spelling object.now.durability)) }
{
    put_u64(out, object.number)?;
    put_u64(out, object.mtime)?;
    put_content_type(out, &object.content_type)?;
    put_durability(out, object.durability)
}

// An object.
#[tactic(auto, unfolding(crate::specs::Records::object_spelling))]
fn put_object<M: Moves>(
    out: &mut Vec<u8>,
    object: &Object<Body>,
    moves: &M,
) -> Result<(), AllocError>
    requires { FitsObject false object.now }
    ensures { OnOk result (out.new.items ≡ out.old.items ++ object_spelling (object_with (moved (M.place moves.now)) object.now)) }
{
    put_said(out, object)?;
    put_metadata(out, object.metadata.as_slice())?;
    put_moved(out, &object.body, moves)
}

// What stands at a path.
#[tactic(auto, unfolding(crate::specs::Records::entry_spelling))]
fn put_standing<M: Moves>(
    out: &mut Vec<u8>,
    entry: &Entry<Body>,
    moves: &M,
) -> Result<(), AllocError>
    requires { FitsEntry false entry.now }
    ensures { OnOk result (out.new.items ≡ out.old.items ++ entry_spelling (entry_with (moved (M.place moves.now)) entry.now)) }
{
    match entry {
        Entry::Directory { mtime } => {
            put_u8(out, 0)?;
            put_u64(out, *mtime)
        }
        Entry::Object(object) => {
            put_u8(out, 1)?;
            put_object(out, object, moves)
        }
    }
}

/// A path, and what stands there.
#[tactic(auto, unfolding(crate::specs::Records::snapshot_spelling, crate::specs::Records::row_spelling))]
pub fn put_row<M: Moves>(
    out: &mut Vec<u8>,
    path: &Path,
    entry: &Entry<Body>,
    moves: &M,
) -> Result<(), AllocError>
    requires { FitsEntry false entry.now }
    ensures { OnOk result (out.new.items ≡ out.old.items
        ++ snapshot_spelling (snapshot_with (moved (M.place moves.now)) (listed.Row (record { path = path.now; entry = entry.now })))) }
{
    put_u8(out, 65)?;
    put_path(out, path)?;
    put_standing(out, entry, moves)
}

// The byte of a flag.
fn flag_code(flag: bool) -> u8
    ensures { result ≡ flag_number flag }
{
    match flag {
        false => 0,
        true => 1,
    }
}

// A moment, where there is one.
fn put_done(out: &mut Vec<u8>, done: Option<u64>) -> Result<(), AllocError>
    ensures { OnOk result (out.new.items ≡ out.old.items ++ optional_spelling big_endian_64 done) }
{
    match done {
        None => put_u8(out, 0),
        Some(moment) => {
            put_u8(out, 1)?;
            put_u64(out, moment)
        }
    }
}

// The fields of a job before the bodies of its assets.
fn put_front(out: &mut Vec<u8>, job: &Job<Body>) -> Result<(), AllocError>
    requires { FitsDocument false job.now.document }
    ensures { OnOk result (out.new.items ≡ out.old.items ++ (big_endian_64 job.now.number ++ document_spelling job.now.document
        ++ big_endian_64 job.now.created ++ byte_spelling (flag_number job.now.ended) ++ byte_spelling (flag_number job.now.cancelled)
        ++ optional_spelling big_endian_64 job.now.done)) }
{
    put_u64(out, job.number)?;
    put_document(out, &job.document)?;
    put_u64(out, job.created)?;
    put_u8(out, flag_code(job.ended))?;
    put_u8(out, flag_code(job.cancelled))?;
    put_done(out, job.done)
}

/// A job, but its lists.
#[tactic(auto, unfolding(crate::specs::Records::snapshot_spelling, crate::specs::Records::job_spelling))]
pub fn put_job<M: Moves>(out: &mut Vec<u8>, job: &Job<Body>, moves: &M) -> Result<(), AllocError>
    requires { FitsJob false (job_record job.now) }
    ensures { OnOk result (out.new.items ≡ out.old.items
        ++ snapshot_spelling (snapshot_with (moved (M.place moves.now)) (listed.Job (job_record job.now)))) }
{
    put_u8(out, 66)?;
    put_front(out, job)?;
    put_assets(out, job.assets.as_slice(), moves)?;
    put_u32(out, job.inputs.len() as u32)?;
    put_u32(out, job.missing.len() as u32)?;
    put_u64(out, job.trace.len() as u64)
}

/// An input of a job.
#[tactic(auto, unfolding(crate::specs::Records::snapshot_spelling))]
pub fn put_input<M: Moves>(
    out: &mut Vec<u8>,
    item: &Item<Body>,
    moves: &M,
) -> Result<(), AllocError>
    requires { FitsItem false item.now }
    ensures { OnOk result (out.new.items ≡ out.old.items ++ snapshot_spelling (snapshot_with (moved (M.place moves.now)) (listed.Input item.now))) }
{
    put_u8(out, 67)?;
    put_item(out, item, moves)
}

/// A posted line that named no object.
#[tactic(auto, unfolding(crate::specs::Records::snapshot_spelling))]
pub fn put_missing(out: &mut Vec<u8>, line: &InputLine) -> Result<(), AllocError>
    requires { FitsLine false line.now }
    ensures { OnOk result (out.new.items ≡ out.old.items ++ snapshot_spelling (listed.Missing line.now)) }
{
    put_u8(out, 68)?;
    put_line(out, line)
}

// Which task was committed, and where.
fn put_task(out: &mut Vec<u8>, entry: &TraceEntry<Body>) -> Result<(), AllocError>
    ensures { OnOk result (out.new.items ≡ out.old.items ++ (big_endian_32 entry.now.phase ++ big_endian_64 entry.now.place ++ big_endian_64 entry.now.position)) }
{
    put_u32(out, entry.phase)?;
    put_u64(out, entry.place)?;
    put_u64(out, entry.position)
}

// The fields of a committed task.
#[tactic(auto, unfolding(crate::specs::Records::trace_spelling))]
fn put_trace<M: Moves>(
    out: &mut Vec<u8>,
    entry: &TraceEntry<Body>,
    moves: &M,
) -> Result<(), AllocError>
    requires { FitsTrace false entry.now }
    ensures { OnOk result (out.new.items ≡ out.old.items ++ trace_spelling (trace_entry_with (moved (M.place moves.now)) entry.now)) }
{
    put_task(out, entry)?;
    put_outcome(out, &entry.outcome, moves)
}

/// A committed task.
#[tactic(auto, unfolding(crate::specs::Records::snapshot_spelling))]
pub fn put_entry<M: Moves>(
    out: &mut Vec<u8>,
    entry: &TraceEntry<Body>,
    moves: &M,
) -> Result<(), AllocError>
    requires { FitsTrace false entry.now }
    ensures { OnOk result (out.new.items ≡ out.old.items ++ snapshot_spelling (snapshot_with (moved (M.place moves.now)) (listed.Entry entry.now))) }
{
    put_u8(out, 69)?;
    put_trace(out, entry, moves)
}

// The byte of a stage.
fn stage_code(stage: Stage) -> u8
    ensures { result ≡ stage_number stage }
{
    match stage {
        Stage::Open => 0,
        Stage::Committed => 1,
        Stage::Aborted => 2,
    }
}

/// An upload, but its parts.
#[tactic(auto, unfolding(crate::specs::Records::snapshot_spelling, crate::specs::Records::upload_spelling))]
pub fn put_upload(out: &mut Vec<u8>, upload: &Upload<Body>) -> Result<(), AllocError>
    requires { FitsUpload false (upload_record upload.now) }
    ensures { OnOk result (out.new.items ≡ out.old.items ++ snapshot_spelling (listed.Upload (upload_record upload.now))) }
{
    put_u8(out, 72)?;
    put_u64(out, upload.number)?;
    put_path(out, &upload.path)?;
    put_content_type(out, &upload.content_type)?;
    put_u64(out, upload.moment)?;
    put_u8(out, stage_code(upload.stage))?;
    put_u16(out, upload.parts.len() as u16)
}

/// A part of an upload.
#[tactic(auto, unfolding(crate::specs::Records::snapshot_spelling, crate::specs::Records::part_spelling))]
pub fn put_part<M: Moves>(
    out: &mut Vec<u8>,
    part: &PartRow<Body>,
    moves: &M,
) -> Result<(), AllocError>
    ensures { OnOk result (out.new.items ≡ out.old.items ++ snapshot_spelling (snapshot_with (moved (M.place moves.now)) (listed.Part part.now))) }
{
    put_u8(out, 73)?;
    put_u16(out, part.index)?;
    put_u64(out, part.number)?;
    put_moved(out, &part.body, moves)
}

/// Nothing follows.
#[tactic(auto, unfolding(crate::specs::Records::snapshot_spelling))]
pub fn put_end(out: &mut Vec<u8>) -> Result<(), AllocError>
    ensures { OnOk result (out.new.items ≡ out.old.items ++ snapshot_spelling listed.End) }
{
    put_u8(out, 71)
}
