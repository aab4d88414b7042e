//! Writing the records of a run behind the closed gate, each but the first with its own gate open.
ghost use Rattle.std.specs.Prelude.{◌≡◌, ◌<◌, ◌≤◌, ◌+◌, ◌^◌, ◌++◌, ◌∷◌, [], ◌≢◌, ℕ, Bool, List, length, is_some, OnOk};
ghost use Rattle.std.specs.Option.{ForSome};
ghost use Rattle.mt_base.specs.Counts.{HasCause};
ghost use Rattle.mt_disk.specs.Files.{Files, contents, overwritten};
ghost use Rattle.mt_disk.specs.CrashModel.{LeavesOnly};
ghost use Rattle.mt_log.specs.LogImage.{IsBeforeOrAfter, head_of, payloads_of};
ghost use Rattle.mt_log.specs.LogState.{OthersStay, Tells, next_place};
ghost use Rattle.mt_log.specs.Stage.{changed, KeepsFront, Laid, Laying};

use crate::log::RECORD_HEAD;
use crate::publish::publish;
use crate::stage::head_bytes;
use mt_disk::{Disk, DiskFault, FileNo};

// An open gate, and the length and the MD5 of a payload.
fn open_head(payload: &[u8]) -> [u8; 21]
    requires { length payload.now < 2 ^ 32 }
    ensures { result ≡ 1 ∷ head_of payload.now }
{
    let mut head = [1; 21];
    head[1..].copy_from_slice(&head_bytes(payload));
    head
}

// Writes two pieces, one behind the other, behind the closed gate.
fn write_behind<D: Disk>(
    disk: &mut D,
    file: FileNo,
    gate: u64,
    at: u64,
    head: &[u8],
    payload: &[u8],
) -> Result<(), DiskFault>
    requires front { ForSome (D.seen disk.old) (λ files. (c : Files) → D.may_leave disk.old c → KeepsFront files file gate c) }
    requires within { ForSome (D.seen disk.old) (λ files. at ≤ length (contents files file)) }
    requires behind { gate + 1 ≤ at }
    requires small { at + length head.now < 2 ^ 64 }
    ensures written { OnOk result (D.seen disk.new ≡ changed file (λ bytes.
        overwritten (overwritten bytes at head.now) (at + length head.now) payload.now) (D.seen disk.old)) }
    ensures any_moment { ForSome (D.seen disk.old) (λ files. LeavesOnly D.moment D.left_since disk.old disk.new (KeepsFront files file gate)) }
    ensures cause { HasCause (D.faults disk.old) (D.faults disk.new) result }
{
    disk.write_at(file, at, head)?;
    disk.write_at(file, at + head.len() as u64, payload)?;
    Ok(())
}

/// Writes one record more of a run.
pub(crate) fn lay<D: Disk>(
    disk: &mut D,
    file: FileNo,
    gate: u64,
    next: u64,
    payload: &[u8],
) -> Result<(), DiskFault>
    requires front { ForSome (D.seen disk.old) (λ files. (c : Files) → D.may_leave disk.old c → KeepsFront files file gate c) }
    requires laying { ForSome (D.seen disk.old) (λ files. (old : Bool) × (records : List (List ℕ)) × Laying files file gate next old records) }
    requires payload { length payload.now < 2 ^ 32 }
    requires order { gate ≤ next }
    requires small { next_place next (length payload.now) + 1 < 2 ^ 64 }
    ensures taken { (old : Bool) (records : List (List ℕ)) → ForSome (D.seen disk.old) (λ files. Laying files file gate next old records) →
        OnOk result (ForSome (D.seen disk.new) (λ files. Laying files file gate (next_place next (length payload.now)) old (records ++ payload.now ∷ []))) }
    ensures others { OnOk result (OthersStay file (D.seen disk.old) (D.seen disk.new)) }
    ensures told { OnOk result (is_some (D.seen disk.new) ≡ is_some (D.seen disk.old)) }
    ensures any_moment { ForSome (D.seen disk.old) (λ files. LeavesOnly D.moment D.left_since disk.old disk.new (KeepsFront files file gate)) }
    ensures cause { HasCause (D.faults disk.old) (D.faults disk.new) result }
{
    if next == gate {
        write_behind(disk, file, gate, gate + 1, &head_bytes(payload), payload)?;
        Ok(())
    } else {
        write_behind(disk, file, gate, next, &open_head(payload), payload)?;
        Ok(())
    }
}

// Writes a closed gate behind the records of a run.
fn seal<D: Disk>(disk: &mut D, file: FileNo, gate: u64, next: u64) -> Result<(), DiskFault>
    requires front { ForSome (D.seen disk.old) (λ files. (c : Files) → D.may_leave disk.old c → KeepsFront files file gate c) }
    requires laying { ForSome (D.seen disk.old) (λ files. (old : Bool) × (records : List (List ℕ)) × Laying files file gate next old records) }
    requires order { gate < next }
    ensures laid { (old : Bool) (records : List (List ℕ)) → ForSome (D.seen disk.old) (λ files. Laying files file gate next old records) →
        OnOk result (ForSome (D.seen disk.new) (λ files. Laid files file gate next old records)) }
    ensures others { OnOk result (OthersStay file (D.seen disk.old) (D.seen disk.new)) }
    ensures told { OnOk result (is_some (D.seen disk.new) ≡ is_some (D.seen disk.old)) }
    ensures any_moment { ForSome (D.seen disk.old) (λ files. LeavesOnly D.moment D.left_since disk.old disk.new (KeepsFront files file gate)) }
    ensures cause { HasCause (D.faults disk.old) (D.faults disk.new) result }
{
    disk.write_at(file, next, &[0])
}

/// Makes the records of a run count.
pub(crate) fn finish<D: Disk>(
    disk: &mut D,
    file: FileNo,
    gate: u64,
    next: u64,
) -> Result<(), DiskFault>
    requires front { ForSome (D.seen disk.old) (λ files. (c : Files) → D.may_leave disk.old c → KeepsFront files file gate c) }
    requires laying { ForSome (D.seen disk.old) (λ files. (old : Bool) × (records : List (List ℕ)) × Laying files file gate next old records) }
    requires order { gate < next }
    ensures added { OnOk result (ForSome (D.seen disk.old) (λ files. (old : Bool) (records : List (List ℕ)) → Laying files file gate next old records →
        Tells D.seen D.may_leave disk.new file next old (payloads_of files ++ records))) }
    ensures others { OnOk result (OthersStay file (D.seen disk.old) (D.seen disk.new)) }
    ensures told { OnOk result (is_some (D.seen disk.new) ≡ is_some (D.seen disk.old)) }
    ensures any_moment { ForSome (D.seen disk.old) (λ files. (old : Bool) (records : List (List ℕ)) → Laying files file gate next old records →
        LeavesOnly D.moment D.left_since disk.old disk.new (IsBeforeOrAfter files records)) }
    ensures cause { HasCause (D.faults disk.old) (D.faults disk.new) result }
{
    seal(disk, file, gate, next)?;
    publish(disk, file, gate)
}
