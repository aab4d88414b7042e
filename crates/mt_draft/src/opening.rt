//! The begin of a draft: Head names the log's file, whatever the other one holds, and the other one is emptied.
ghost use Rattle.std.specs.Prelude.{◌≡◌, ◌↔◌, ◌<◌, false, [], IfOk, IsErrOf, OnOk};
ghost use Rattle.std.specs.Option.{ForSome};
ghost use Rattle.mt_base.specs.Counts.{NeverFell, Rose};
ghost use Rattle.mt_disk.specs.CrashModel.{LeavesOnly};
ghost use Rattle.mt_log.specs.LogImage.{SameLog, empty_size, log_magic};
ghost use Rattle.mt_log.specs.LogState.{Stands, told};
ghost use Rattle.mt_draft.specs.Drafts.{Drafting, IsDrafted, other_of};

use crate::draft::{Draft, DraftEnd, PIECE};
use crate::head::make_firm;
use crate::pour::clear;
use mt_disk::{Disk, FileNo};
use mt_log::Log;
use std::alloc::{AllocError, Global};

/// What a log begins with.
const MAGIC: [u8; 8] = *b"MTLOG002";

/// The bytes of a log without a payload.
const EMPTY_LEN: u64 = 9;

/// The other of the two files that may hold a log.
pub(crate) fn other(file: FileNo) -> FileNo
    ensures { result ≡ other_of file }
{
    match file {
        FileNo::One => FileNo::Two,
        FileNo::Two => FileNo::One,
        FileNo::Head => FileNo::Two,
    }
}

// What is held of a draft without a record, with room for a piece.
fn first_held(alloc: Global) -> Result<Vec<u8>, AllocError>
    ensures { IfOk result (λ held. held.items ≡ log_magic) }
{
    let mut held = Vec::with_capacity(alloc, PIECE)?;
    held.extend_from_slice(&MAGIC)?;
    Ok(held)
}

/// Begins the draft of a log that may get `limit` bytes long, with its closed gate. It takes memory for a piece, mends Head where that
/// names a log in Two that isn't there, and empties the other file: up to four calls of the disk.
pub fn begin<D: Disk>(alloc: Global, disk: &mut D, log: &Log, limit: u64) -> Result<Draft, DraftEnd>
    requires stands { Stands D.seen D.may_leave disk.old log.now }
    requires is_open { log.now.closed ≡ false }

    // The draft has no payload yet.
    ensures begun { IfOk result (λ draft. ForSome (D.seen disk.new) (λ files. IsDrafted files log.now draft [])) }
    ensures drafting { IfOk result (λ draft. Drafting D.seen D.may_leave disk.new log.now draft) }
    ensures draft { IfOk result (λ draft. draft ≡ record { file = other_of log.now.file; written = 0; held = log_magic; limit = limit }) }

    // The log stays as it was, also in a crash at any moment of the call.
    ensures same { OnOk result (told (D.seen disk.new) ≡ told (D.seen disk.old)) }
    ensures any_moment { ForSome (D.seen disk.old) (λ files. LeavesOnly D.moment D.left_since disk.old disk.new (SameLog files)) }

    ensures full { IsErrOf result DraftEnd.Full ↔ (limit < empty_size) }
    ensures unchanged { IsErrOf result DraftEnd.Full → disk.new ≡ disk.old }
    ensures memory { IsErrOf result DraftEnd.Memory → disk.new ≡ disk.old }
    ensures disk { IsErrOf result DraftEnd.Disk → Rose (D.faults disk.old) (D.faults disk.new) }
    ensures stays { D.stays disk.old disk.new }
    ensures faults { NeverFell (D.faults disk.old) (D.faults disk.new) }
{
    if limit < EMPTY_LEN {
        return Err(DraftEnd::Full);
    }
    let held = first_held(alloc)?;
    let old = log.file();
    let file = other(old);
    make_firm(disk, old)?;
    clear(disk, file)?;
    Ok(Draft {
        file,
        written: 0,
        held,
        limit,
    })
}
