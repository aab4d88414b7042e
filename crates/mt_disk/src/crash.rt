//! What a crash leaves of each call, as a test picks it.
ghost use Rattle.std.specs.Prelude.{◌≡◌, length, OnOk, IfNone, IsSome, IsErrOf};
ghost use Rattle.mt_disk.specs.Calls.{Leaves, after_call};
ghost use Rattle.mt_disk.specs.declared.crash.CrashError.TheVariants.{Memory};
ghost use Rattle.mt_disk.specs.Entries.{call_of, size_of_entry};

use crate::contents::Contents;
use crate::record::Entry;
use std::alloc::AllocError;

/// What a crash leaves of a write or of a cut.
#[derive(Clone, Copy, Debug, PartialEq, Eq)]
pub enum Pick {
    /// Nothing of a write; the file isn't cut.
    Nothing,
    /// A zero for each byte of a write; the file is cut.
    Zeros,
    /// The byte 1 for each byte of a write; the file is cut.
    Ones,
    /// The first half of a write's bytes; the file is cut.
    Half,
    /// All of a write; the file is cut.
    Whole,
}

/// Why there is no disk after a crash.
#[derive(Clone, Copy, Debug, PartialEq, Eq)]
pub enum CrashError {
    /// The picks leave something else of a synced file than a read gave.
    NotAnImage,
    /// Want of memory, which a disk within its room never has.
    Memory,
}

impl From<AllocError> for CrashError {
    ghost from_gives = { λ _ e. e ≡ Memory };

    fn from(_: AllocError) -> Self {
        CrashError::Memory
    }
}

// Does what a call did.
fn make(held: &mut Contents, entry: Entry, bytes: &[u8]) -> Result<(), AllocError>
    requires { size_of_entry entry ≡ length bytes.now }
    ensures { OnOk result (held.new.files ≡ after_call (call_of entry bytes.now) held.old.files) }
{
    match entry {
        Entry::Write {
            file,
            at,
            done: true,
            ..
        } => {
            let at = at as usize;
            if !held.has_room(at, bytes.len()) {
                return Err(AllocError);
            }
            held.write(file, at, bytes);
            Ok(())
        }
        Entry::Cut {
            file,
            to,
            done: true,
        } => {
            held.cut(file, to as usize);
            Ok(())
        }
        Entry::Write { .. } | Entry::Cut { .. } | Entry::Sync { .. } => Ok(()),
    }
}

// Does to an image what a pick leaves of a call.
fn leave(
    image: &mut Contents,
    seen: &Contents,
    entry: Entry,
    bytes: &[u8],
    pick: Pick,
) -> Result<(), CrashError>
    requires { size_of_entry entry ≡ length bytes.now }
    ensures { OnOk result (Leaves (call_of entry bytes.now) seen.now.files image.old.files image.new.files) }
{
    match entry {
        Entry::Write { file, at, .. } => {
            let at = at as usize;
            if !image.has_room(at, bytes.len()) {
                return Err(CrashError::Memory);
            }
            image.tear(file, at, bytes, pick);
            Ok(())
        }
        Entry::Cut { file, to, .. } => {
            if pick != Pick::Nothing {
                image.cut(file, to as usize);
            }
            Ok(())
        }
        Entry::Sync { file } => {
            if image.file(file) != seen.file(file) {
                return Err(CrashError::NotAnImage);
            }
            Ok(())
        }
    }
}

/// Does to an image what a pick leaves of a call, or without a pick what the call did, and does that to what a
/// read gives.
pub(crate) fn step(
    image: &mut Contents,
    seen: &mut Contents,
    entry: Entry,
    bytes: &[u8],
    pick: Option<Pick>,
) -> Result<(), CrashError>
    requires size { size_of_entry entry ≡ length bytes.now }
    requires same { IfNone pick (image.old.files ≡ seen.old.files) }
    ensures left { OnOk result (Leaves (call_of entry bytes.now) seen.old.files image.old.files image.new.files) }
    ensures seen { OnOk result (seen.new.files ≡ after_call (call_of entry bytes.now) seen.old.files) }
    ensures same { OnOk result (IfNone pick (image.new.files ≡ seen.new.files)) }
    ensures refused { IsErrOf result CrashError.NotAnImage → IsSome pick }
{
    match pick {
        Some(pick) => {
            leave(image, seen, entry, bytes, pick)?;
            make(seen, entry, bytes)?;
            Ok(())
        }
        None => {
            make(image, entry, bytes)?;
            make(seen, entry, bytes)?;
            Ok(())
        }
    }
}
