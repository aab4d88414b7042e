//! A record, written again with its bodies at other places.
ghost use Rattle.std.specs.Prelude.{IfOk, false};
ghost use Rattle.mt_snapshot.specs.Records.{FitsJob, FitsSnapshot, FitsUpload};

use crate::job::{job_of, upload_of};
use mt_codec::DecodeError;
use mt_rows::Stop;
use mt_snapshot::{
    JobRecord, Moves, SnapshotRecord, UploadRecord, laws, put_begin, put_end, put_entry, put_input,
    put_job, put_missing, put_part, put_row, put_upload, read_record,
};
use mt_types::Body;
use std::alloc::{AllocError, Global};

// Each body stands so much further behind.
#[derive(Drop)]
struct Shifted {
    by: u64,
}

impl Moves for Shifted {
    ghost use Rattle.std.specs.Prelude.{◌+◌, ◌%◌, ◌^◌};

    ghost place = { λ moves body. (body.first + moves.by) % 2 ^ 64 };

    fn first(&self, body: &Body) -> u64 {
        body.first.wrapping_add(self.by)
    }
}

// The record of bytes that are one.
fn record_of(alloc: Global, bytes: &[u8]) -> Result<SnapshotRecord<Body>, Stop>
    ensures { IfOk result (λ listed. FitsSnapshot false listed) }
{
    laws::read_is_within_limits();
    match read_record(alloc, bytes) {
        Ok(record) => Ok(record),
        Err(DecodeError::NotACommand) => Err(Stop::NoSuchRow),
        Err(DecodeError::Memory) => Err(Stop::Memory),
    }
}

/// The bytes of the record of these bytes, with each body so much further behind.
pub fn written(alloc: Global, bytes: &[u8], by: u64) -> Result<Vec<u8>, Stop> {
    let record = record_of(alloc, bytes)?;
    let mut out = Vec::new(alloc);
    put(alloc, &mut out, record, &Shifted { by })?;
    Ok(out)
}

// What a writer gave, as the end of a row.
fn done(written: Result<(), AllocError>) -> Result<(), Stop> {
    Ok(written?)
}

fn put_kept_job(
    alloc: Global,
    out: &mut Vec<u8>,
    kept: JobRecord<Body>,
    moves: &Shifted,
) -> Result<(), Stop>
    requires { FitsJob false kept }
{
    let job = job_of(alloc, kept)?;
    done(put_job(out, &job, moves))
}

fn put_kept_upload(alloc: Global, out: &mut Vec<u8>, kept: UploadRecord) -> Result<(), Stop>
    requires { FitsUpload false kept }
{
    let upload = upload_of(alloc, kept)?;
    done(put_upload(out, &upload))
}

// A record that isn't a job or an upload.
fn put_other(out: &mut Vec<u8>, listed: &SnapshotRecord<Body>, moves: &Shifted) -> Result<(), Stop>
    requires { FitsSnapshot false listed.now }
{
    match listed {
        SnapshotRecord::Begin {
            count,
            rows,
            jobs,
            uploads,
        } => done(put_begin(out, *count, *rows, *jobs, *uploads)),
        SnapshotRecord::Row(row) => done(put_row(out, &row.path, &row.entry, moves)),
        SnapshotRecord::Input(item) => done(put_input(out, item, moves)),
        SnapshotRecord::Missing(line) => done(put_missing(out, line)),
        SnapshotRecord::Entry(entry) => done(put_entry(out, entry, moves)),
        SnapshotRecord::Part(part) => done(put_part(out, part, moves)),
        SnapshotRecord::End => done(put_end(out)),
        _ => Err(Stop::NoSuchRow),
    }
}

fn put(
    alloc: Global,
    out: &mut Vec<u8>,
    listed: SnapshotRecord<Body>,
    moves: &Shifted,
) -> Result<(), Stop>
    requires { FitsSnapshot false listed }
{
    match listed {
        SnapshotRecord::Job(job) => put_kept_job(alloc, out, job, moves),
        SnapshotRecord::Upload(upload) => put_kept_upload(alloc, out, upload),
        other => put_other(out, &other, moves),
    }
}
