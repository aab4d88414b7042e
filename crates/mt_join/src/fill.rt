//! Reading the next piece of the parts.
ghost use Rattle.std.specs.Prelude.{◌≡◌, ◌<◌, ◌≤◌, ◌+◌, ◌^◌, true, false, length, IfOk};
ghost use Rattle.std.specs.List.{All};
ghost use Rattle.std.specs.Option.{ForSome};
ghost use Rattle.mt_base.specs.Counts.{HasCause};
ghost use Rattle.mt_body.specs.Stored.{is_stored};
ghost use Rattle.mt_disk.specs.CrashModel.{OnlyRead};
ghost use Rattle.mt_join.specs.Filling.{Fills, FillsPiece, IsWithin};
ghost use Rattle.mt_log.specs.LogState.{IsThere, told};

use md5::{Digest, Md5};
use mt_body::read_body;
use mt_disk::{Disk, DiskFault};
use mt_log::Log;
use mt_types::{Body, PartRow};

/// Where reading goes on: at the part of this place in the list, behind so many of its bytes.
#[derive(Clone, Copy)]
pub(crate) struct Cursor {
    pub(crate) next: usize,
    pub(crate) at: u64,
}

/// How many bytes were read, and where reading goes on.
#[derive(Clone, Copy)]
pub(crate) struct Filled {
    pub(crate) count: usize,
    pub(crate) cursor: Cursor,
}

// The cursor behind so many bytes more of its part, which has so many in all.
fn behind(cursor: Cursor, count: u64, len: u64) -> Cursor
    requires within { cursor.at + count ≤ len }
    requires next { cursor.next + 1 < 2 ^ 64 }
    ensures inner { cursor.at + count < len → result ≡ record { next = cursor.next; at = cursor.at + count } }
    ensures last { cursor.at + count ≡ len → result ≡ record { next = cursor.next + 1; at = 0 } }
{
    if cursor.at + count == len {
        Cursor {
            next: cursor.next + 1,
            at: 0,
        }
    } else {
        Cursor {
            next: cursor.next,
            at: cursor.at + count,
        }
    }
}

// Reads from the cursor on until the buffer is full, or no part is left. A part without bytes is passed over.
fn fill_piece<D: Disk>(
    log: &Log,
    disk: &mut D,
    parts: &[PartRow<Body>],
    from: Cursor,
    into: &mut [u8],
) -> Result<Filled, DiskFault>
    requires there { IsThere D.seen disk.old log.now }
    requires is_open { log.now.closed ≡ false }
    requires stored { ForSome (told (D.seen disk.old)) (λ ps. All (λ p. is_stored ps p.body ≡ true) parts.now) }
    requires within { IsWithin parts.now from }
    ensures filled { IfOk result (λ filled. Fills filled.count into.new parts.now from filled.cursor (told (D.seen disk.old))) }
    ensures read { OnlyRead D.seen D.may_leave D.moment D.left_since disk.old disk.new }
    ensures cause { HasCause (D.faults disk.old) (D.faults disk.new) result }
{
    let mut done = 0;
    let mut cursor = from;
    while done < into.len() && cursor.next < parts.len() {
        let body = &parts[cursor.next].body;
        let left = body.size() - cursor.at;
        let count = ((into.len() - done) as u64).min(left) as usize;
        read_body(log, disk, body, cursor.at, &mut into[done..done + count])?;
        done += count;
        cursor = behind(cursor, count as u64, body.size());
    }
    Ok(Filled {
        count: done,
        cursor,
    })
}

/// Reads the next piece of the parts behind its mark, and digests its bytes.
pub(crate) fn next_piece<D: Disk>(
    log: &Log,
    disk: &mut D,
    parts: &[PartRow<Body>],
    from: Cursor,
    buffer: &mut [u8],
    sum: &mut Md5,
) -> Result<Filled, DiskFault>
    requires there { IsThere D.seen disk.old log.now }
    requires is_open { log.now.closed ≡ false }
    requires stored { ForSome (told (D.seen disk.old)) (λ ps. All (λ p. is_stored ps p.body ≡ true) parts.now) }
    requires within { IsWithin parts.now from }
    requires buffer { length buffer.old ≡ 65537 }
    ensures piece { IfOk result (λ filled. FillsPiece filled.count buffer.new parts.now from filled.cursor (told (D.seen disk.old)) sum.old sum.new) }
    ensures read { OnlyRead D.seen D.may_leave D.moment D.left_since disk.old disk.new }
    ensures cause { HasCause (D.faults disk.old) (D.faults disk.new) result }
{
    buffer[0] = 0;
    let filled = fill_piece(log, disk, parts, from, &mut buffer[1..])?;
    sum.update(&buffer[1..filled.count + 1]);
    Ok(filled)
}
