//! The digests of bodies in a log, of which a log keeps none: they are taken once, as it is opened.
ghost use Rattle.std.specs.Prelude.{◌≡◌, ◌<◌, true, length, map, IfOk, OnOk, IsErr, IsErrOf};
ghost use Rattle.std.specs.List.{AllByRecursion};
ghost use Rattle.std.specs.Option.{ForSome};
ghost use Rattle.md5.specs.Md5.{md5};
ghost use Rattle.mt_log.specs.LogState.{told};
ghost use Rattle.mt_body.specs.Stored.{IsStored, bytes_of, is_stored};
ghost use Rattle.mt_codec.specs.Spelling.{undigested, undigested_body};
ghost use Rattle.mt_model.specs.Bodies.{OfArchive, OfCommand, OfFate, OfRecord};
ghost use Rattle.mt_types.specs.Kinds.{kind_of};
ghost use Rattle.mt_types.specs.Values.{archive_with, fate_with, record_with};
ghost use Rattle.mt_account.specs.Taken.{IsTaken};
ghost use Rattle.mt_opening.specs.Looking.{BodyIsThere, LogIsThere, OnlyLooks};

use md5::{Digest, Md5};
use mt_body::read_body;
use mt_disk::{Disk, DiskFault};
use mt_log::{Log, ReadFault};
use mt_types::{Archive, Body, Command, Fate, LARGEST_PIECE, Sequence, TaskRecord};
use std::alloc::AllocError;

// The digest of a stored body, by a buffer of some bytes: each byte is read once.
fn digest_by<D: Disk>(
    log: &Log,
    disk: &mut D,
    body: &Body,
    buffer: &mut [u8],
) -> Result<[u8; 16], DiskFault>
    requires ready { BodyIsThere D.seen disk.old log.now body.now }
    requires room { 0 < body.now.len → 0 < length buffer.old }
    ensures digest { IfOk result (λ sum. ForSome (told (D.seen disk.old)) (λ ps. sum ≡ md5 (bytes_of ps body.now))) }
    ensures looks { OnlyLooks D.seen D.may_leave D.moment D.left_since D.faults D.stays disk.old disk.new (IsErr result) }
{
    let len = body.size();
    let mut sum = Md5::new();
    let mut at = 0;
    while at < len {
        let count = (len - at).min(buffer.len() as u64) as usize;
        read_body(log, disk, body, at, &mut buffer[..count])?;
        sum.update(&buffer[..count]);
        at += count as u64;
    }
    Ok(sum.finalize())
}

// The digest of a stored body. The buffer gets as many bytes as the body has, and those of a piece at most.
fn digest_body<D: Disk>(
    log: &Log,
    disk: &mut D,
    body: &Body,
    buffer: &mut Vec<u8>,
) -> Result<[u8; 16], ReadFault>
    requires ready { BodyIsThere D.seen disk.old log.now body.now }
    ensures digest { IfOk result (λ sum. ForSome (told (D.seen disk.old)) (λ ps. sum ≡ md5 (bytes_of ps body.now))) }
    ensures looks { OnlyLooks D.seen D.may_leave D.moment D.left_since D.faults D.stays disk.old disk.new (IsErrOf result ReadFault.Disk) }
{
    buffer.clear();
    buffer.resize(body.size().min(LARGEST_PIECE as u64) as usize, 0)?;
    let sum = digest_by(log, disk, body, buffer.as_mut_slice())?;
    Ok(sum)
}

// Gives a stored body the digest of its bytes.
fn digest<D: Disk>(
    log: &Log,
    disk: &mut D,
    body: &mut Body,
    buffer: &mut Vec<u8>,
) -> Result<(), ReadFault>
    requires ready { BodyIsThere D.seen disk.old log.now body.old }
    ensures same { OnOk result (undigested_body body.new ≡ undigested_body body.old) }
    ensures digest { OnOk result (ForSome (told (D.seen disk.old)) (λ ps. IsStored ps body.new)) }
    ensures looks { OnlyLooks D.seen D.may_leave D.moment D.left_since D.faults D.stays disk.old disk.new (IsErrOf result ReadFault.Disk) }
{
    body.md5 = digest_body(log, disk, body, buffer)?;
    Ok(())
}

// Gives the body of a record that one.
fn digest_record<D: Disk>(
    log: &Log,
    disk: &mut D,
    written: &mut TaskRecord<Body>,
    buffer: &mut Vec<u8>,
) -> Result<(), ReadFault>
    requires ready { LogIsThere D.seen disk.old log.now }
    requires stored { ForSome (told (D.seen disk.old)) (λ ps. OfRecord (λ b. is_stored ps b ≡ true) written.old) }
    ensures same { OnOk result (record_with undigested_body written.new ≡ record_with undigested_body written.old) }
    ensures digests { OnOk result (ForSome (told (D.seen disk.old)) (λ ps. OfRecord (IsStored ps) written.new)) }
    ensures looks { OnlyLooks D.seen D.may_leave D.moment D.left_since D.faults D.stays disk.old disk.new (IsErrOf result ReadFault.Disk) }
{
    match written {
        TaskRecord::Emit { body, .. } => digest(log, disk, body, buffer),
        TaskRecord::Keep { body, .. } => digest(log, disk, body, buffer),
        TaskRecord::Ref { .. } => Ok(()),
    }
}

// Gives the bodies of records those.
fn digest_records<D: Disk>(
    log: &Log,
    disk: &mut D,
    mut records: Vec<TaskRecord<Body>>,
    buffer: &mut Vec<u8>,
) -> Result<Vec<TaskRecord<Body>>, ReadFault>
    requires ready { LogIsThere D.seen disk.old log.now }
    requires stored { ForSome (told (D.seen disk.old)) (λ ps. AllByRecursion (OfRecord (λ b. is_stored ps b ≡ true)) records.items) }
    ensures same { IfOk result (λ rs. map (record_with undigested_body) rs.items ≡ map (record_with undigested_body) records.items) }
    ensures digests { IfOk result (λ rs. ForSome (told (D.seen disk.old)) (λ ps. AllByRecursion (OfRecord (IsStored ps)) rs.items)) }
    ensures looks { OnlyLooks D.seen D.may_leave D.moment D.left_since D.faults D.stays disk.old disk.new (IsErrOf result ReadFault.Disk) }
{
    for k in 0..records.len() {
        match digest_record(log, disk, &mut records[k], buffer) {
            Ok(()) => {}
            Err(fault) => return Err(fault),
        }
    }
    Ok(records)
}

// Gives the bodies of a fate those.
fn digest_fate<D: Disk>(
    log: &Log,
    disk: &mut D,
    fate: Fate<Body>,
    buffer: &mut Vec<u8>,
) -> Result<Fate<Body>, ReadFault>
    requires ready { LogIsThere D.seen disk.old log.now }
    requires stored { ForSome (told (D.seen disk.old)) (λ ps. OfFate (λ b. is_stored ps b ≡ true) fate) }
    ensures same { IfOk result (λ f. fate_with undigested_body f ≡ fate_with undigested_body fate) }
    ensures digests { IfOk result (λ f. ForSome (told (D.seen disk.old)) (λ ps. OfFate (IsStored ps) f)) }
    ensures looks { OnlyLooks D.seen D.may_leave D.moment D.left_since D.faults D.stays disk.old disk.new (IsErrOf result ReadFault.Disk) }
{
    match fate {
        Fate::Good(records) => {
            let records = digest_records(log, disk, records.into_vec(), buffer)?;
            Ok(Fate::Good(Sequence::from_vec(records)))
        }
        other => Ok(other),
    }
}

// Gives the five bodies of an archive those.
fn digest_archive<D: Disk>(
    log: &Log,
    disk: &mut D,
    mut archive: Archive<Body>,
    buffer: &mut Vec<u8>,
) -> Result<Archive<Body>, ReadFault>
    requires ready { LogIsThere D.seen disk.old log.now }
    requires stored { ForSome (told (D.seen disk.old)) (λ ps. OfArchive (λ b. is_stored ps b ≡ true) archive) }
    ensures same { IfOk result (λ a. archive_with undigested_body a ≡ archive_with undigested_body archive) }
    ensures digests { IfOk result (λ a. ForSome (told (D.seen disk.old)) (λ ps. OfArchive (IsStored ps) a)) }
    ensures looks { OnlyLooks D.seen D.may_leave D.moment D.left_since D.faults D.stays disk.old disk.new (IsErrOf result ReadFault.Disk) }
{
    digest(log, disk, &mut archive.err, buffer)?;
    digest(log, disk, &mut archive.fail, buffer)?;
    digest(log, disk, &mut archive.input, buffer)?;
    digest(log, disk, &mut archive.status, buffer)?;
    digest(log, disk, &mut archive.out, buffer)?;
    Ok(archive)
}

/// Gives each body that a command on rows or jobs brings the digest of its bytes in the log, which are read once.
pub(crate) fn digest_command<D: Disk>(
    log: &Log,
    disk: &mut D,
    command: Command<Body>,
    buffer: &mut Vec<u8>,
) -> Result<Command<Body>, ReadFault>
    requires ready { LogIsThere D.seen disk.old log.now }
    requires kind { IsTaken (kind_of command) }
    requires stored { ForSome (told (D.seen disk.old)) (λ ps. OfCommand (λ b. is_stored ps b ≡ true) command) }
    ensures same { IfOk result (λ c. undigested c ≡ undigested command) }
    ensures digests { IfOk result (λ c. ForSome (told (D.seen disk.old)) (λ ps. OfCommand (IsStored ps) c)) }
    ensures looks { OnlyLooks D.seen D.may_leave D.moment D.left_since D.faults D.stays disk.old disk.new (IsErrOf result ReadFault.Disk) }
{
    match command {
        Command::Put {
            path,
            content_type,
            mut body,
            durability,
            metadata,
            moment,
        } => {
            digest(log, disk, &mut body, buffer)?;
            Ok(Command::Put {
                path,
                content_type,
                body,
                durability,
                metadata,
                moment,
            })
        }
        Command::Commit {
            job,
            phase,
            place,
            fate,
            moment,
        } => Ok(Command::Commit {
            job,
            phase,
            place,
            fate: digest_fate(log, disk, fate, buffer)?,
            moment,
        }),
        Command::Close {
            job,
            cancelled,
            archive,
            moment,
        } => Ok(Command::Close {
            job,
            cancelled,
            archive: digest_archive(log, disk, archive, buffer)?,
            moment,
        }),
        other => Ok(other),
    }
}
