//! Sending a part of a stored body.
ghost use Rattle.std.specs.Prelude.{◌≡◌, ◌<◌, ◌≤◌, ◌-◌, ℕ, List, true, false, length, take, drop};
ghost use Rattle.std.specs.Option.{ForSome};
ghost use Rattle.mt_base.specs.Counts.{NeverFell, Rose};
ghost use Rattle.mt_disk.specs.CrashModel.{OnlyRead};
ghost use Rattle.mt_log.specs.LogState.{IsThere, told};
ghost use Rattle.mt_body.specs.Sending.{Sends};
ghost use Rattle.mt_body.specs.Stored.{bytes_of, is_stored};

use crate::part::read_some;
use mt_disk::{Disk, DiskFault};
use mt_edge::{Sink, SinkFault, write_all};
use mt_log::Log;
use mt_types::Body;

/// How far a part of a body was sent.
#[derive(Clone, Copy, Debug, PartialEq, Eq)]
pub enum Sent {
    /// All of it.
    Whole,
    /// A front of it: the sink has failed.
    SinkFault,
    /// A front of it: the disk has failed.
    Disk,
}

/// Writes the body's bytes from the byte `from` on, up to the byte `to`, in pieces of the buffer's length, and of 65,536 bytes at
/// most. It takes no memory.
pub fn send_body<D: Disk, K: Sink>(
    log: &Log,
    disk: &mut D,
    sink: &mut K,
    body: &Body,
    from: u64,
    to: u64,
    buffer: &mut [u8],
) -> Sent
    requires there { IsThere D.seen disk.old log.now }
    requires is_open { log.now.closed ≡ false }
    requires stored { ForSome (told (D.seen disk.old)) (λ ps. is_stored ps body.now ≡ true) }
    requires part { (from ≤ to) × (to ≤ body.now.len) }
    requires room { 0 < length buffer.old }
    // Over a disk that tells nothing: some bytes, so many.
    ensures sent { (bytes : List ℕ) × (length bytes ≡ to - from) × Sends result bytes (K.got sink.old) (K.got sink.new) (K.write_faults sink.old) (K.write_faults sink.new)
        × ForSome (told (D.seen disk.old)) (λ ps. bytes ≡ take (to - from) (drop from (bytes_of ps body.now))) }
    ensures read { OnlyRead D.seen D.may_leave D.moment D.left_since disk.old disk.new }
    ensures disk { result ≡ Sent.Disk → Rose (D.faults disk.old) (D.faults disk.new) }
    ensures faults { NeverFell (D.faults disk.old) (D.faults disk.new) }
    ensures stays { K.sink_stays sink.old sink.new }
{
    let mut at = from;
    while at < to {
        let wanted = (to - at).min(buffer.len() as u64) as usize;
        let count = match read_some(log, disk, body, at, &mut buffer[..wanted]) {
            Ok(count) => count,
            Err(DiskFault) => return Sent::Disk,
        };
        match write_all(sink, &buffer[..count]) {
            Ok(()) => at += count as u64,
            Err(SinkFault) => return Sent::SinkFault,
        }
    }
    Sent::Whole
}
