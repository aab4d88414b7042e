//! Reading the bodies of an engine's state.
ghost use Rattle.std.specs.Prelude.{◌≡◌, ◌<◌, ◌≤◌, ◌+◌, ◌-◌, ℕ, List, length, take, drop, IsErr, OnOk};
ghost use Rattle.std.specs.Option.{ForSome};
ghost use Rattle.mt_body.specs.Sending.{Sends};
ghost use Rattle.mt_body.specs.Stored.{bytes_of};
ghost use Rattle.mt_log.specs.LogState.{told};
ghost use Rattle.mt_model.specs.State.{State};
ghost use Rattle.mt_opening.specs.Current.{IsCurrent};
ghost use Rattle.mt_opening.specs.History.{Bytes, History};
ghost use Rattle.mt_opening.specs.Looking.{BodyIsThere, OnlyLooks, OnlyReads};
ghost use Rattle.mt_engine.specs.Reading.{ReadsPart, SendsPart};

use crate::engine::Engine;
use mt_body::{Sent, read_body, send_body};
use mt_disk::{Disk, DiskFault};
use mt_edge::Sink;
use mt_types::Body;

impl Engine {
    /// Fills the slice with the body's bytes from the byte `at` on. It takes no memory.
    pub fn read_body<D: Disk>(
        &self,
        disk: &mut D,
        body: &Body,
        at: u64,
        into: &mut [u8],
    ) -> Result<(), DiskFault>
        requires ready { BodyIsThere D.seen disk.old self.now.log body.now }
        requires within { at + length into.old ≤ body.now.len }
        ensures bytes { OnOk result (ForSome (told (D.seen disk.old)) (λ ps. into.new ≡ take (length into.old) (drop at (bytes_of ps body.now)))) }
        // Over a disk that tells what it holds: the bytes that the history's objects of this body have.
        ensures part { (base : State Bytes) (h : History) → IsCurrent (D.seen disk.old) self.now base h → ReadsPart result into.new at (length into.old) self.now base h body.now }
        // Nothing was written, so that the engine stands as it did, and for the same history.
        ensures looks { OnlyLooks D.seen D.may_leave D.moment D.left_since D.faults D.stays disk.old disk.new (IsErr result) }
    {
        read_body(&self.log, disk, body, at, into)
    }

    /// Writes the body's bytes from the byte `from` on, up to the byte `to`, in pieces of the buffer's length, and of 65,536 bytes
    /// at most. It takes no memory.
    pub fn send_body<D: Disk, K: Sink>(
        &self,
        disk: &mut D,
        sink: &mut K,
        body: &Body,
        from: u64,
        to: u64,
        buffer: &mut [u8],
    ) -> Sent
        requires ready { BodyIsThere D.seen disk.old self.now.log body.now }
        requires part { (from ≤ to) × (to ≤ body.now.len) }
        requires room { 0 < length buffer.old }
        // Over a disk that tells nothing: some bytes, so many.
        ensures sent { (bytes : List ℕ) × (length bytes ≡ to - from) × Sends result bytes (K.got sink.old) (K.got sink.new) (K.write_faults sink.old) (K.write_faults sink.new)
            × ForSome (told (D.seen disk.old)) (λ ps. bytes ≡ take (to - from) (drop from (bytes_of ps body.now))) }
        // Over one that tells what it holds: the bytes that the history's objects of this body have.
        ensures part { (base : State Bytes) (h : History) → IsCurrent (D.seen disk.old) self.now base h →
            SendsPart result (K.got sink.old) (K.got sink.new) (K.write_faults sink.old) (K.write_faults sink.new) from to self.now base h body.now }
        // Nothing was written, so that the engine stands as it did, and for the same history.
        ensures reads { OnlyReads D.seen D.may_leave D.moment D.left_since D.faults disk.old disk.new (result ≡ Sent.Disk) }
        ensures stays { K.sink_stays sink.old sink.new }
    {
        send_body(&self.log, disk, sink, body, from, to, buffer)
    }
}
