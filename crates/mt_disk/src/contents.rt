//! What three files hold, in memory of a fixed room.
use crate::bytes;
use crate::crash::Pick;
use crate::disk::FileNo;
use std::alloc::{AllocError, Global};
use std::marker::Model;

/// Three lists of bytes, with room for so many bytes in each.
#[derive(Drop)]
pub(crate) struct Contents {
    head: Vec<u8>,
    one: Vec<u8>,
    two: Vec<u8>,
    room: usize,
}

impl Model for Contents {
    ghost use Rattle.std.specs.Prelude.{◌≤◌, vec_capacity};
    ghost use Rattle.mt_disk.specs.MemState.{Held};

    ghost Value = { Held };

    ghost view = { λ c. record { files = record { head = c.head.items; one = c.one.items; two = c.two.items }; room = c.room } };

    ghost invariant = { λ c. (c.room ≤ vec_capacity c.head) × (c.room ≤ vec_capacity c.one) × (c.room ≤ vec_capacity c.two) };
}

impl Contents {
    ghost use Rattle.std.specs.Prelude.{◌≡◌, ◌≤◌, ◌+◌, ◌↔◌, IsTrue, IfOk, OnOk, length, take};
    ghost use Rattle.mt_disk.specs.Files.{contents, with_contents, overwritten};
    ghost use Rattle.mt_disk.specs.CrashModel.{Torn, OnFile};

    /// Copies of what three files hold.
    pub(crate) fn new(
        alloc: Global,
        head: &[u8],
        one: &[u8],
        two: &[u8],
        room: usize,
    ) -> Result<Self, AllocError>
        ensures { IfOk result (λ c. c.files ≡ record { head = head.now; one = one.now; two = two.now }) }
    {
        Ok(Contents {
            head: bytes::with_room(alloc, head, room)?,
            one: bytes::with_room(alloc, one, room)?,
            two: bytes::with_room(alloc, two, room)?,
            room,
        })
    }

    /// What a file holds.
    pub(crate) fn file(&self, file: FileNo) -> &[u8]
        ensures { result.now ≡ contents self.now.files file }
    {
        match file {
            FileNo::Head => &self.head,
            FileNo::One => &self.one,
            FileNo::Two => &self.two,
        }
    }

    /// Whether a write of so many bytes at a place stays within the room.
    pub(crate) fn has_room(&self, at: usize, len: usize) -> bool
        ensures { IsTrue result ↔ (at + len ≤ self.now.room) }
    {
        len <= self.room && at <= self.room - len
    }

    /// Writes a piece over what a file holds, and past its end.
    pub(crate) fn write(&mut self, file: FileNo, at: usize, piece: &[u8])
        requires { at + length piece.now ≤ self.old.room }
        ensures { self.new ≡ record self.old { files = with_contents self.old.files file (overwritten (contents self.old.files file) at piece.now) } }
    {
        match file {
            FileNo::Head => bytes::overwrite(&mut self.head, at, piece),
            FileNo::One => bytes::overwrite(&mut self.one, at, piece),
            FileNo::Two => bytes::overwrite(&mut self.two, at, piece),
        }
    }

    /// Cuts a file to a length, where it is longer.
    pub(crate) fn cut(&mut self, file: FileNo, to: usize)
        ensures { self.new ≡ record self.old { files = with_contents self.old.files file (take to (contents self.old.files file)) } }
    {
        match file {
            FileNo::Head => self.head.truncate(to),
            FileNo::One => self.one.truncate(to),
            FileNo::Two => self.two.truncate(to),
        }
    }

    /// Leaves a part of a write.
    pub(crate) fn tear(&mut self, file: FileNo, at: usize, piece: &[u8], pick: Pick)
        requires { at + length piece.now ≤ self.old.room }
        ensures { OnFile file (Torn at (length piece.now)) self.old.files self.new.files }
    {
        match file {
            FileNo::Head => bytes::tear(&mut self.head, at, piece, pick),
            FileNo::One => bytes::tear(&mut self.one, at, piece, pick),
            FileNo::Two => bytes::tear(&mut self.two, at, piece, pick),
        }
    }

    /// Makes the files hold what others hold.
    pub(crate) fn copy_from(&mut self, other: &Contents) -> Result<(), AllocError>
        ensures { OnOk result (self.new.files ≡ other.now.files) }
    {
        bytes::replace(&mut self.head, &other.head)?;
        bytes::replace(&mut self.one, &other.one)?;
        bytes::replace(&mut self.two, &other.two)
    }
}
