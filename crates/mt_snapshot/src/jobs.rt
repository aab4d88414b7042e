//! Jobs but their lists, read from a cursor.
ghost use Rattle.std.specs.Prelude.{◌≡◌};
ghost use Rattle.mt_codec.specs.Reading.{Gives, optional, times};
ghost use Rattle.mt_codec.specs.Readers.{body_at, moment_at};
ghost use Rattle.mt_snapshot.specs.Readers.{assets_at, front_at, job_at};

use crate::record::JobRecord;
use mt_base::Sequence;
use mt_bytes::Cursor;
use mt_codec::DecodeError;
use mt_codec::fields::{body, byte, document, eight, flag, four, moment};
use mt_types::{AssetBodies, Body, JobDocument, Phase};
use std::alloc::Global;

/// The fields of a job before the bodies of its assets.
#[derive(Drop)]
pub struct JobFront {
    /// Its number.
    pub number: u64,
    /// What it is asked to do.
    pub document: JobDocument,
    /// When it was made, in seconds since 1970.
    pub created: u64,
    /// Whether its input has ended.
    pub ended: bool,
    /// Whether it was cancelled.
    pub cancelled: bool,
    /// When it was done, in seconds since 1970.
    pub done: Option<u64>,
}

// A moment, where there is one.
fn done(cursor: &mut Cursor) -> Result<Option<u64>, DecodeError>
    ensures { Gives result cursor.new (optional moment_at cursor.old) }
{
    match byte(cursor)? {
        0 => Ok(None),
        1 => Ok(Some(moment(cursor)?)),
        _ => Err(DecodeError::NotACommand),
    }
}

// The fields before the bodies of the assets.
#[tactic(auto, unfolding(crate::specs::Readers::front_at))]
fn front(alloc: Global, cursor: &mut Cursor) -> Result<JobFront, DecodeError>
    ensures { Gives result cursor.new (front_at cursor.old) }
{
    let number = eight(cursor)?;
    let document = document(alloc, cursor)?;
    let created = moment(cursor)?;
    let ended = flag(cursor)?;
    let cancelled = flag(cursor)?;
    let done = done(cursor)?;
    Ok(JobFront {
        number,
        document,
        created,
        ended,
        cancelled,
        done,
    })
}

// So many bodies.
fn bodies(alloc: Global, n: usize, cursor: &mut Cursor) -> Result<Sequence<Body>, DecodeError>
    ensures { Gives result cursor.new (times body_at n cursor.old) }
{
    let mut bodies = Sequence::new(alloc);
    for _ in 0..n {
        bodies.push(body(cursor)?)?;
    }
    Ok(bodies)
}

// The bodies of the assets of these phases.
fn assets(
    alloc: Global,
    phases: &[Phase],
    cursor: &mut Cursor,
) -> Result<AssetBodies<Body>, DecodeError>
    ensures { Gives result cursor.new (assets_at phases.now cursor.old) }
{
    let mut assets = AssetBodies::new(alloc);
    for phase in phases {
        assets.push(bodies(alloc, phase.assets.len(), cursor)?)?;
    }
    Ok(assets)
}

/// A job, but its lists.
#[tactic(auto, unfolding(crate::specs::Readers::job_at))]
pub fn job(alloc: Global, cursor: &mut Cursor) -> Result<JobRecord<Body>, DecodeError>
    ensures { Gives result cursor.new (job_at cursor.old) }
{
    let front = front(alloc, cursor)?;
    let assets = assets(alloc, front.document.phases.as_slice(), cursor)?;
    let inputs = four(cursor)?;
    let missing = four(cursor)?;
    let entries = eight(cursor)?;
    Ok(JobRecord {
        number: front.number,
        document: front.document,
        created: front.created,
        ended: front.ended,
        cancelled: front.cancelled,
        done: front.done,
        assets,
        inputs,
        missing,
        entries,
    })
}
