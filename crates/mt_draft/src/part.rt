//! Bytes of a file, behind those that are held.
ghost use Rattle.std.specs.Prelude.{◌≡◌, ◌≢◌, ◌<◌, ◌≤◌, ◌+◌, ◌^◌, ◌++◌, Err, length, take, drop, IsErrOf, OnOk};
ghost use Rattle.std.specs.Option.{ForSome};
ghost use Rattle.mt_base.specs.Counts.{HasCause, NeverFell, Rose};
ghost use Rattle.mt_disk.specs.Files.{contents};
ghost use Rattle.mt_disk.specs.CrashModel.{OnlyRead};

use crate::draft::DraftEnd;
use mt_disk::{Disk, DiskFault, FileNo};
use std::alloc::AllocError;

// Makes room for so many bytes more.
fn make_room(held: &mut Vec<u8>, count: usize) -> Result<(), AllocError>
    requires { length held.old.items + count < 2 ^ 64 }
    ensures len { OnOk result (length held.new.items ≡ length held.old.items + count) }
    ensures kept { take (length held.old.items) held.new.items ≡ held.old.items }
    ensures bounded { length held.new.items ≤ length held.old.items + count }
{
    let len = held.len();
    held.resize(len + count, 0)
}

// Reads the bytes of a file from a place on, behind what is held in front.
fn read_behind<D: Disk>(
    disk: &mut D,
    file: FileNo,
    at: u64,
    bytes: &mut [u8],
    held: usize,
    more: usize,
) -> Result<(), DiskFault>
    requires room { held + more ≤ length bytes.old }
    requires within { ForSome (D.seen disk.old) (λ files. at + more ≤ length (contents files file)) }
    ensures bytes { OnOk result (ForSome (D.seen disk.old) (λ files.
        take (held + more) bytes.new ≡ take held bytes.old ++ take more (drop at (contents files file)))) }
    ensures read { OnlyRead D.seen D.may_leave D.moment D.left_since disk.old disk.new }
    ensures stays { D.stays disk.old disk.new }
    ensures cause { HasCause (D.faults disk.old) (D.faults disk.new) result }
{
    disk.read(file, at, &mut bytes[held..held + more])?;
    Ok(())
}

/// Reads so many bytes of a file from a place on, to the end of what is held.
pub(crate) fn read_more<D: Disk>(
    disk: &mut D,
    file: FileNo,
    at: u64,
    held: &mut Vec<u8>,
    count: usize,
) -> Result<(), DraftEnd>
    requires room { length held.old.items + count < 2 ^ 64 }
    requires within { ForSome (D.seen disk.old) (λ files. at + count ≤ length (contents files file)) }
    ensures held { OnOk result (ForSome (D.seen disk.old) (λ files. held.new.items ≡ held.old.items ++ take count (drop at (contents files file)))) }
    ensures next { OnOk result (length held.new.items ≡ length held.old.items + count) }
    ensures bounded { length held.new.items ≤ length held.old.items + count }
    ensures read { OnlyRead D.seen D.may_leave D.moment D.left_since disk.old disk.new }
    ensures never_full { result ≢ Err DraftEnd.Full }
    ensures disk { IsErrOf result DraftEnd.Disk → Rose (D.faults disk.old) (D.faults disk.new) }
    ensures stays { D.stays disk.old disk.new }
    ensures faults { NeverFell (D.faults disk.old) (D.faults disk.new) }
{
    let len = held.len();
    make_room(held, count)?;
    read_behind(disk, file, at, held.as_mut_slice(), len, count)?;
    Ok(())
}
