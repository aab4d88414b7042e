//! Writing a record where nobody reads yet.
ghost use Rattle.std.specs.Prelude.{◌≡◌, ◌<◌, ◌+◌, ◌^◌, length, OnOk};
ghost use Rattle.std.specs.Option.{ForSome};
ghost use Rattle.mt_base.specs.Counts.{HasCause};
ghost use Rattle.mt_disk.specs.CrashModel.{Only, LeavesOnly};
ghost use Rattle.mt_log.specs.LogImage.{head_of};
ghost use Rattle.mt_log.specs.LogState.{next_place};
ghost use Rattle.mt_log.specs.Stage.{staged, changed, HasLogAt, KeepsFront};

use crate::log::RECORD_HEAD;
use md5::{Digest, Md5};
use mt_disk::{Disk, DiskFault, FileNo};

/// The length and the MD5 of a payload.
pub(crate) fn head_bytes(payload: &[u8]) -> [u8; 20]
    requires { length payload.now < 2 ^ 32 }
    ensures { result ≡ head_of payload.now }
{
    let mut head = [0; 20];
    let sum: [u8; 16] = Md5::digest(payload);
    head[..4].copy_from_slice(&(payload.len() as u32).to_be_bytes());
    head[4..].copy_from_slice(&sum);
    head
}

// Writes a record and the gate after it behind the closed gate, which stays closed.
pub(crate) fn stage<D: Disk>(
    disk: &mut D,
    file: FileNo,
    gate: u64,
    payload: &[u8],
) -> Result<(), DiskFault>
    requires stands { ForSome (D.seen disk.old) (λ files. Only files (D.may_leave disk.old) × HasLogAt files file gate) }
    requires payload { length payload.now < 2 ^ 32 }
    requires fits { next_place gate (length payload.now) + 1 < 2 ^ 64 }
    ensures staged { OnOk result (D.seen disk.new ≡ changed file (λ bytes. staged bytes gate payload.now) (D.seen disk.old)) }
    ensures any_moment { ForSome (D.seen disk.old) (λ files.
        LeavesOnly D.moment D.left_since disk.old disk.new (KeepsFront files file gate)) }
    ensures cause { HasCause (D.faults disk.old) (D.faults disk.new) result }
{
    disk.write_at(file, gate + 1, &head_bytes(payload))?;
    disk.write_at(file, gate + RECORD_HEAD, payload)?;
    disk.write_at(file, gate + RECORD_HEAD + payload.len() as u64, &[0])
}
