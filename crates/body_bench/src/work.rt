//! Storing a whole source, sending a whole body, and joining it to itself.
ghost use Rattle.std.specs.Prelude.{◌≡◌, ℕ, List, Option, false, true, length, IfOk, OnOk};
ghost use Rattle.std.specs.List.{All};
ghost use Rattle.std.specs.Option.{ForSome};
ghost use Rattle.mt_edge.specs.Stream.{GotMore, LeftAfter};
ghost use Rattle.mt_log.specs.LogState.{Stands, told};
ghost use Rattle.mt_body.specs.Stored.{bytes_of, is_stored};
ghost use Rattle.mt_join.specs.Joining.{joined};
ghost use Rattle.mt_types.specs.declared.upload.PartRow.{PartRow};

use crate::outcome::Fault;
use md5::{Digest, Md5};
use mt_base::Duplicate;
use mt_body::{Sent, Storing, send_body, store};
use mt_disk::Disk;
use mt_edge::{Sink, Source};
use mt_join::{Joining, join};
use mt_log::Log;
use mt_types::{Body, LARGEST_PIECE, PartRow};
use std::alloc::Global;

/// How often a body is a part of its join.
const PARTS: u16 = 16;

/// Stores a source to its end, in a run of its own.
pub(crate) fn store_whole<D: Disk, S: Source>(
    alloc: Global,
    log: &mut Log,
    disk: &mut D,
    source: &mut S,
) -> Result<Body, Fault>
    requires stands { Stands D.seen D.may_leave disk.old log.old }
    requires version { log.old.closed ≡ false → log.old.is_old ≡ false }
    requires is_open { log.old.closed ≡ false }
    ensures bytes { IfOk result (λ body. (bytes : List ℕ) × LeftAfter (S.left source.old) bytes (S.left source.new)
        × ForSome (told (D.seen disk.new)) (λ ps. bytes_of ps body ≡ bytes)) }
    ensures stored { IfOk result (λ body. ForSome (told (D.seen disk.new)) (λ ps. is_stored ps body ≡ true)) }
    ensures stands { OnOk result (Stands D.seen D.may_leave disk.new log.new) }
    ensures version { OnOk result (log.new.is_old ≡ false) }
    ensures is_open { OnOk result (log.new.closed ≡ false) }
{
    let mut sum = Md5::new();
    let mut run = log.begin_run(disk);
    match store(alloc, log, disk, &mut run, source, &mut sum) {
        Storing::Stored(body) => match log.end_run(disk, run) {
            Ok(()) => Ok(body),
            Err(_) => Err(Fault::Disk),
        },
        Storing::Full => Err(Fault::Full),
        Storing::SourceFault => Err(Fault::Input),
        Storing::Disk => Err(Fault::Disk),
        Storing::Memory => Err(Fault::Memory),
    }
}

/// Sends a body from its first byte to its last.
pub(crate) fn send_whole<D: Disk, K: Sink>(
    alloc: Global,
    log: &Log,
    disk: &mut D,
    sink: &mut K,
    body: &Body,
) -> Result<(), Fault>
    requires stands { Stands D.seen D.may_leave disk.old log.now }
    requires is_open { log.now.closed ≡ false }
    requires stored { ForSome (told (D.seen disk.old)) (λ ps. is_stored ps body.now ≡ true) }
{
    let mut buffer = Vec::with_capacity(alloc, LARGEST_PIECE)?;
    buffer.resize(LARGEST_PIECE, 0)?;
    match send_body(log, disk, sink, body, 0, body.size(), buffer.as_mut_slice()) {
        Sent::Whole => Ok(()),
        Sent::SinkFault => Err(Fault::Output),
        Sent::Disk => Err(Fault::Disk),
    }
}

// A body as each of the parts of a join.
fn parts_of(alloc: Global, body: &Body) -> Result<Vec<PartRow<Body>>, Fault>
    ensures count { IfOk result (λ parts. length parts.items ≡ 16) }
    ensures same { IfOk result (λ parts. All (λ p. p.body ≡ body.now) parts.items) }
{
    let mut parts = Vec::with_capacity(alloc, PARTS as usize)?;
    for index in 0..PARTS {
        parts.push(PartRow {
            index,
            number: index as u64,
            body: body.copy(alloc)?,
        })?;
    }
    Ok(parts)
}

/// Joins a stored body to itself, sixteen of it one behind another, in a run of its own.
pub(crate) fn join_whole<D: Disk>(
    alloc: Global,
    log: &mut Log,
    disk: &mut D,
    body: &Body,
) -> Result<Body, Fault>
    requires stands { Stands D.seen D.may_leave disk.old log.old }
    requires version { log.old.is_old ≡ false }
    requires is_open { log.old.closed ≡ false }
    requires stored { ForSome (told (D.seen disk.old)) (λ ps. is_stored ps body.now ≡ true) }
    ensures bytes { IfOk result (λ whole. (parts : List (PartRow Body)) × (length parts ≡ 16) × All (λ p. p.body ≡ body.now) parts
        × ForSome (told (D.seen disk.old)) (λ old. ForSome (told (D.seen disk.new)) (λ ps. bytes_of ps whole ≡ joined old parts))) }
{
    let parts = parts_of(alloc, body)?;
    let mut run = log.begin_run(disk);
    match join(alloc, log, disk, &mut run, parts.as_slice()) {
        Joining::Joined(whole) => match log.end_run(disk, run) {
            Ok(()) => Ok(whole),
            Err(_) => Err(Fault::Disk),
        },
        Joining::Full => Err(Fault::Full),
        Joining::Disk => Err(Fault::Disk),
        Joining::Memory => Err(Fault::Memory),
    }
}
