//! A record whose body is what is read, piece by piece: mpipe and mtee.
ghost use Rattle.std.specs.Prelude.{◌≡◌, ◌<◌, true, IfSome, length};
ghost use Rattle.mt_base.specs.Counts.{NeverFell};
ghost use Rattle.mt_edge.specs.Stream.{WritesAll};
ghost use Rattle.mt_spawn.specs.Spools.{has_file};
ghost use Rattle.mt_helper.specs.Ends.{AreLater, ends};
ghost use Rattle.mt_helper.specs.Streaming.{HasPassed, Passes, Pumps, Streamed, copied_of};

use crate::limits::{LARGEST_INPUT, PIECE};
use crate::spooling::{add, put_file, status_of};
use crate::status::Status;
use mt_edge::{ReadStep, Sink, SinkFault, Source, write_all};
use mt_records::end_of;
use mt_spawn::{Spool, SpoolFault};
use std::alloc::Global;

// Writes a piece, where it is copied.
fn copy<K: Sink>(sink: &mut K, copies: bool, piece: &[u8]) -> Result<(), SinkFault>
    ensures writes { WritesAll (K.got sink.old) (K.write_faults sink.old) (copied_of copies piece.now) result (K.got sink.new) (K.write_faults sink.new) }
    ensures stays { K.sink_stays sink.old sink.new }
{
    if !copies {
        return Ok(());
    }
    write_all(sink, piece)
}

// Passes a piece on, to the sink first.
fn pass<K: Sink, P: Spool>(
    sink: &mut K,
    spool: &mut P,
    number: u32,
    copies: bool,
    piece: &[u8],
) -> Result<(), Status>
    requires { IfSome (P.files spool.old) (λ fs. has_file number fs ≡ true) }
    ensures passes { Passes number copies piece.now result (K.got sink.old) (K.got sink.new) (P.files spool.old) (P.files spool.new) }
    ensures cause { HasPassed result (K.write_faults sink.old) (K.write_faults sink.new) (P.faults spool.old) (P.faults spool.new) }
    ensures writes { NeverFell (K.write_faults sink.old) (K.write_faults sink.new) }
    ensures spools { NeverFell (P.faults spool.old) (P.faults spool.new) }
    ensures stays { K.sink_stays sink.old sink.new }
{
    match copy(sink, copies, piece) {
        Ok(()) => {}
        Err(SinkFault) => return Err(Status::SinkFault),
    }
    match add(spool, number, piece) {
        Ok(()) => Ok(()),
        Err(SpoolFault) => Err(Status::SpoolFault),
    }
}

// Passes on all that is left, and counts it.
fn pump<S: Source, K: Sink, P: Spool>(
    source: &mut S,
    sink: &mut K,
    spool: &mut P,
    number: u32,
    copies: bool,
    buffer: &mut [u8],
) -> Result<u64, Status>
    requires there { IfSome (P.files spool.old) (λ fs. has_file number fs ≡ true) }
    requires room { 0 < length buffer.old }
    ensures pumps { Pumps number copies result
        (ends (S.left source.old) (K.got sink.old) (P.files spool.old) (S.read_faults source.old) (K.write_faults sink.old) (P.faults spool.old))
        (ends (S.left source.new) (K.got sink.new) (P.files spool.new) (S.read_faults source.new) (K.write_faults sink.new) (P.faults spool.new)) }
    ensures later { AreLater
        (ends (S.left source.old) (K.got sink.old) (P.files spool.old) (S.read_faults source.old) (K.write_faults sink.old) (P.faults spool.old))
        (ends (S.left source.new) (K.got sink.new) (P.files spool.new) (S.read_faults source.new) (K.write_faults sink.new) (P.faults spool.new)) }
    ensures source_stays { S.source_stays source.old source.new }
    ensures sink_stays { K.sink_stays sink.old sink.new }
{
    let mut len = 0;
    'read: loop {
        match source.read(buffer) {
            ReadStep::Took(count) => {
                len += count;
                if len > LARGEST_INPUT {
                    return Err(Status::InputTooLarge);
                }
                pass(sink, spool, number, copies, &buffer[..count])?;
            }
            ReadStep::End => return Ok(len as u64),
            ReadStep::Failed => return Err(Status::SourceFault),
        }
    }
}

/// Makes a record of all that is left of the source, behind these bytes of its head. The number is taken before the first read.
pub(crate) fn stream<S: Source, K: Sink, P: Spool>(
    alloc: Global,
    head: &[u8],
    copies: bool,
    source: &mut S,
    sink: &mut K,
    spool: &mut P,
) -> Status
    requires { 0 < length head.now }
    ensures streamed { Streamed head.now copies result
        (ends (S.left source.old) (K.got sink.old) (P.files spool.old) (S.read_faults source.old) (K.write_faults sink.old) (P.faults spool.old))
        (ends (S.left source.new) (K.got sink.new) (P.files spool.new) (S.read_faults source.new) (K.write_faults sink.new) (P.faults spool.new)) }
    ensures later { AreLater
        (ends (S.left source.old) (K.got sink.old) (P.files spool.old) (S.read_faults source.old) (K.write_faults sink.old) (P.faults spool.old))
        (ends (S.left source.new) (K.got sink.new) (P.files spool.new) (S.read_faults source.new) (K.write_faults sink.new) (P.faults spool.new)) }
    ensures source_stays { S.source_stays source.old source.new }
    ensures sink_stays { K.sink_stays sink.old sink.new }
{
    let Ok(mut buffer) = vec![in alloc; 0u8; PIECE] else {
        return Status::OutOfMemory;
    };
    let number = match put_file(spool, 0, head) {
        Ok(number) => number,
        Err(halt) => return status_of(halt),
    };
    let len = match pump(source, sink, spool, number, copies, &mut buffer) {
        Ok(len) => len,
        Err(status) => return status,
    };
    match add(spool, number, &end_of(len)) {
        Ok(()) => Status::Done,
        Err(SpoolFault) => Status::SpoolFault,
    }
}
