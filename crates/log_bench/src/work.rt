//! Adding records to a log one by one or in one run, and digesting payloads.
ghost use Rattle.std.specs.Prelude.{◌≡◌, ◌<◌, ◌^◌, false, replicate, length, IfOk, OnOk};
ghost use Rattle.mt_log.specs.LogState.{Stands, told, with_payloads};
ghost use Rattle.std.specs.List.{concat};
ghost use Rattle.md5.specs.Md5.{md5};

use md5::{Digest, Md5};
use mt_disk::Disk;
use mt_log::{AppendError, Log};
use std::alloc::{AllocError, Global};

/// The byte that each payload is made of.
const FILLER: u8 = b'x';

/// A payload of so many bytes.
pub(crate) fn payload_of(alloc: Global, size: u32) -> Result<Vec<u8>, AllocError>
    ensures { IfOk result (λ payload. payload.items ≡ replicate size FILLER) }
{
    let mut payload = Vec::with_capacity(alloc, size as usize)?;
    payload.resize(size as usize, FILLER)?;
    Ok(payload)
}

/// Appends a payload so many times, each by its own syncs.
pub(crate) fn add_each<D: Disk>(
    log: &mut Log,
    disk: &mut D,
    payload: &[u8],
    count: u64,
) -> Result<(), AppendError>
    requires stands { Stands D.seen D.may_leave disk.old log.old }
    requires version { log.old.closed ≡ false → log.old.is_old ≡ false }
    requires payload { length payload.now < 2 ^ 32 }
    ensures added { OnOk result (told (D.seen disk.new) ≡ with_payloads (replicate count payload.now) (told (D.seen disk.old))) }
    ensures stands { Stands D.seen D.may_leave disk.new log.new }
{
    for _done in 0..count {
        log.append(disk, payload)?;
    }
    Ok(())
}

/// Adds a payload so many times in one run, which has one pair of syncs.
pub(crate) fn add_run<D: Disk>(
    log: &mut Log,
    disk: &mut D,
    payload: &[u8],
    count: u64,
) -> Result<(), AppendError>
    requires stands { Stands D.seen D.may_leave disk.old log.old }
    requires version { log.old.closed ≡ false → log.old.is_old ≡ false }
    requires payload { length payload.now < 2 ^ 32 }
    ensures added { OnOk result (told (D.seen disk.new) ≡ with_payloads (replicate count payload.now) (told (D.seen disk.old))) }
{
    let mut run = log.begin_run(disk);
    for _done in 0..count {
        log.add_to_run(disk, &mut run, payload)?;
    }
    log.end_run(disk, run)
}

/// Digests a payload so many times, and gives the digest of the digests.
pub(crate) fn digests(payload: &[u8], count: u64) -> [u8; 16]
    ensures { result ≡ md5 (concat (replicate count (md5 payload.now))) }
{
    let mut all = Md5::new();
    for _done in 0..count {
        let sum: [u8; 16] = Md5::digest(payload);
        all.update(&sum);
    }
    all.finalize()
}
