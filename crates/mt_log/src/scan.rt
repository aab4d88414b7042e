//! Reading a log from its front on, up to its closed gate or to its first fault.
ghost use Rattle.std.specs.Prelude.{◌≡◌, ◌<◌, ◌≤◌, ◌+◌, ◌-◌, ◌^◌, ℕ, Bool, false, Some, Err, IsOk, length, take, drop, IfOk, IfErr, OnOk, IsErrOf};
ghost use Rattle.std.specs.Int.{w32, to_be_bytes};
ghost use Rattle.std.specs.Option.{ForSome};
ghost use Rattle.mt_base.specs.Counts.{HasCause, Rose, NeverFell};
ghost use Rattle.mt_disk.specs.Files.{contents};
ghost use Rattle.mt_disk.specs.CrashModel.{OnlyRead};
ghost use Rattle.mt_log.specs.LogImage.{LogFault, empty_size, log_by, magic_of, magic_size, record_head};
ghost use Rattle.mt_log.specs.Scan.{EndsWith, GateIs, HasLog, HasRecord, IsHead, IsOpenGate, IsWindow, StopsAt, Walked, fault_of, rest_at, OpensAs};

use crate::log::{EMPTY_LEN, MAGIC_LEN, RECORD_HEAD};
use crate::open_error::OpenError;
use crate::window::Window;
use mt_disk::{Disk, DiskFault, FileNo};
use std::alloc::Global;

/// Where a log ends, and whether it is of the old version.
#[derive(Drop)]
pub(crate) struct Found {
    pub(crate) gate: u64,
    pub(crate) is_old: bool,
}

// What stands behind a gate: the payload's length and its MD5.
#[derive(Drop)]
struct RecordHead {
    len: u32,
    sum: [u8; 16],
}

// Whether the gate at the window's place is open.
fn is_open<D: Disk>(window: &mut Window, disk: &mut D) -> Result<bool, OpenError>
    requires { ForSome (D.seen disk.old) (λ files. IsWindow files window.old) }
    ensures gate { IfOk result (λ is_open. ForSome (D.seen disk.old) (λ files. GateIs is_open (rest_at files window.old))) }
    ensures within { OnOk result (window.old.at < window.old.end) }
    ensures refused { IfErr result (λ e. ForSome (D.seen disk.old) (λ files. (fault : LogFault) → fault_of e ≡ Some fault →
        EndsWith window.old.at (rest_at files window.old) (Err fault))) }
    ensures same { window.new ≡ record window.old { held = window.new.held } }
    ensures window { OnOk result (ForSome (D.seen disk.new) (λ files. IsWindow files window.new)) }
    ensures read { OnlyRead D.seen D.may_leave D.moment D.left_since disk.old disk.new }
    ensures disk { IsErrOf result OpenError.Disk → Rose (D.faults disk.old) (D.faults disk.new) }
    ensures faults { NeverFell (D.faults disk.old) (D.faults disk.new) }
{
    if window.left() == 0 {
        return Err(OpenError::Short {
            at: window.at(),
            wanted: 1,
            left: 0,
        });
    }
    window.fill(disk, 1)?;
    let gate = window.front(1)[0];
    Ok(gate == 1)
}

// The number that four bytes stand for, highest byte first.
pub(crate) fn length_of(bytes: &[u8]) -> u32
    requires { length bytes.now ≡ 4 }
    ensures { to_be_bytes w32 result ≡ bytes.now }
{
    let mut four = [0; 4];
    four.copy_from_slice(bytes);
    u32::from_be_bytes(four)
}

// Reads a gate, a length and an MD5, and goes over them.
fn read_head<D: Disk>(window: &mut Window, disk: &mut D) -> Result<RecordHead, DiskFault>
    requires window { ForSome (D.seen disk.old) (λ files. IsWindow files window.old) }
    requires fits { window.old.at + record_head ≤ window.old.end }
    ensures head { IfOk result (λ h. ForSome (D.seen disk.old) (λ files. IsHead (drop 1 (rest_at files window.old)) h.len h.sum)) }
    ensures same { OnOk result (window.new ≡ record window.old { at = window.old.at + record_head; held = window.new.held }) }
    ensures window { OnOk result (ForSome (D.seen disk.new) (λ files. IsWindow files window.new)) }
    ensures read { OnlyRead D.seen D.may_leave D.moment D.left_since disk.old disk.new }
    ensures cause { HasCause (D.faults disk.old) (D.faults disk.new) result }
{
    window.fill(disk, RECORD_HEAD as usize)?;
    let front = window.front(RECORD_HEAD as usize);
    let len = length_of(&front[1..5]);
    let mut sum = [0; 16];
    sum.copy_from_slice(&front[5..RECORD_HEAD as usize]);
    window.skip(RECORD_HEAD as usize);
    Ok(RecordHead { len, sum })
}

// Goes over a record whose gate is open.
fn pass_record<D: Disk>(window: &mut Window, disk: &mut D) -> Result<(), OpenError>
    requires window { ForSome (D.seen disk.old) (λ files. IsWindow files window.old) }
    requires gate { ForSome (D.seen disk.old) (λ files. IsOpenGate (rest_at files window.old)) }
    ensures passed { OnOk result (ForSome (D.seen disk.old) (λ files. HasRecord (rest_at files window.old) (window.new.at - window.old.at))) }
    ensures moved { OnOk result ((window.old.at + record_head ≤ window.new.at) × (window.new.at ≤ window.old.end)) }
    ensures refused { IfErr result (λ e. ForSome (D.seen disk.old) (λ files. (fault : LogFault) → fault_of e ≡ Some fault →
        EndsWith window.old.at (rest_at files window.old) (Err fault))) }
    ensures same { OnOk result (window.new ≡ record window.old { at = window.new.at; held = window.new.held }) }
    ensures window { OnOk result (ForSome (D.seen disk.new) (λ files. IsWindow files window.new)) }
    ensures read { OnlyRead D.seen D.may_leave D.moment D.left_since disk.old disk.new }
    ensures disk { IsErrOf result OpenError.Disk → Rose (D.faults disk.old) (D.faults disk.new) }
    ensures faults { NeverFell (D.faults disk.old) (D.faults disk.new) }
{
    let at = window.at();
    let left = window.left();
    if left < RECORD_HEAD {
        return Err(OpenError::Short {
            at,
            wanted: RECORD_HEAD,
            left,
        });
    }
    let head = read_head(window, disk)?;
    let wanted = RECORD_HEAD + head.len as u64;
    if left < wanted {
        return Err(OpenError::Short { at, wanted, left });
    }
    let computed = window.digest(disk, head.len as u64)?;
    let same = head.sum.as_slice() == computed.as_slice();
    if !same {
        return Err(OpenError::Damaged {
            at,
            kept: head.sum,
            computed,
        });
    }
    Ok(())
}

// Goes over the records from the window's place on, up to the closed gate.
fn walk<D: Disk>(window: &mut Window, disk: &mut D) -> Result<(), OpenError>
    requires { ForSome (D.seen disk.old) (λ files. IsWindow files window.old) }
    ensures closed { OnOk result (ForSome (D.seen disk.old) (λ files. (old : Bool) → Walked old (contents files window.old.file) window.old.at →
        HasLog old (contents files window.old.file) window.new.at)) }
    ensures refused { IfErr result (λ e. ForSome (D.seen disk.old) (λ files. (fault : LogFault) → fault_of e ≡ Some fault → (old : Bool) →
        Walked old (contents files window.old.file) window.old.at → StopsAt old (contents files window.old.file) fault)) }
    ensures within { OnOk result (window.new.at < window.old.end) }
    ensures later { OnOk result (window.old.at ≤ window.new.at) }
    ensures read { OnlyRead D.seen D.may_leave D.moment D.left_since disk.old disk.new }
    ensures disk { IsErrOf result OpenError.Disk → Rose (D.faults disk.old) (D.faults disk.new) }
    ensures faults { NeverFell (D.faults disk.old) (D.faults disk.new) }
{
    'records: loop {
        if !is_open(window, disk)? {
            return Ok(());
        }
        pass_record(window, disk)?;
    }
}

// Reads the first bytes of a log, and goes over them. Gives whether they are of the old version.
fn version<D: Disk>(window: &mut Window, disk: &mut D) -> Result<bool, OpenError>
    requires window { ForSome (D.seen disk.old) (λ files. IsWindow files window.old) }
    requires front { window.old.at ≡ 0 }
    requires long { empty_size ≤ window.old.end }
    ensures version { IfOk result (λ old. ForSome (D.seen disk.old) (λ files. take magic_size (contents files window.old.file) ≡ magic_of old)) }
    ensures refused { IfErr result (λ e. ForSome (D.seen disk.old) (λ files. (fault : LogFault) → fault_of e ≡ Some fault → (any : Bool) →
        log_by any (contents files window.old.file) ≡ Err fault)) }
    ensures same { OnOk result (window.new ≡ record window.old { at = magic_size; held = window.new.held }) }
    ensures window { OnOk result (ForSome (D.seen disk.new) (λ files. IsWindow files window.new)) }
    ensures read { OnlyRead D.seen D.may_leave D.moment D.left_since disk.old disk.new }
    ensures disk { IsErrOf result OpenError.Disk → Rose (D.faults disk.old) (D.faults disk.new) }
    ensures faults { NeverFell (D.faults disk.old) (D.faults disk.new) }
{
    window.fill(disk, MAGIC_LEN as usize)?;
    let front = window.front(MAGIC_LEN as usize);
    let is_new = front == b"MTLOG002".as_slice();
    let is_old = front == b"MTLOG001".as_slice();
    if !is_new && !is_old {
        return Err(OpenError::NotALog);
    }
    window.skip(MAGIC_LEN as usize);
    Ok(is_old)
}

/// Reads a file as a log of this version, or also of the old one, in memory of a fixed size, each byte once.
pub(crate) fn scan<D: Disk>(
    alloc: Global,
    disk: &mut D,
    file: FileNo,
    takes_old: bool,
) -> Result<Found, OpenError>
    ensures found { IfOk result (λ found. ForSome (D.seen disk.old) (λ files. HasLog found.is_old (contents files file) found.gate)) }
    ensures answer { ForSome (D.seen disk.old) (λ files. OpensAs result (log_by takes_old (contents files file))) }
    ensures version { takes_old ≡ false → IfOk result (λ found. found.is_old ≡ false) }
    ensures small { IfOk result (λ found. found.gate + 1 < 2 ^ 64) }
    ensures first { IfOk result (λ found. magic_size ≤ found.gate) }
    ensures read { OnlyRead D.seen D.may_leave D.moment D.left_since disk.old disk.new }
    ensures disk { IsErrOf result OpenError.Disk → Rose (D.faults disk.old) (D.faults disk.new) }
    ensures faults { NeverFell (D.faults disk.old) (D.faults disk.new) }
{
    let end = disk.len(file)?;
    if end < EMPTY_LEN {
        return Err(OpenError::NotALog);
    }
    let mut window = Window::new(alloc, file, end)?;
    let is_old = version(&mut window, disk)?;
    if is_old && !takes_old {
        return Err(OpenError::OldVersion);
    }
    walk(&mut window, disk)?;
    Ok(Found {
        gate: window.at(),
        is_old,
    })
}
