//! The body of a reply is read, or copied to a sink.
ghost use Rattle.std.specs.Prelude.{◌<◌, length};
ghost use Rattle.mt_response.specs.Reading.{Copies, ReceivesBody};

use crate::reply::{Copied, ReplyReadEnd};
use mt_base::Bytes;
use mt_edge::{ReadStep, Sink, SinkFault, Source, write_all};
use std::alloc::Global;

/// A body is read by pieces of at most so many bytes.
const PIECE: usize = 4_096;

/// Reads a body of so many bytes from a link, and no byte past it. It takes memory as bytes come, and never by the length
/// that was told.
pub fn read_reply_body<L: Source>(
    alloc: Global,
    link: &mut L,
    len: u64,
) -> Result<Bytes, ReplyReadEnd>
    ensures stays { L.source_stays link.old link.new }
    ensures read { ReceivesBody len (L.left link.old) (L.read_faults link.old)
        result (L.left link.new) (L.read_faults link.new) }
{
    let mut body = Vec::new(alloc);
    let mut piece = [0; PIECE];
    let mut left = len;
    while left > 0 {
        let room = left.min(PIECE as u64) as usize;
        let into = &mut piece[..room];
        match link.read(into) {
            ReadStep::Took(count) => {
                if body.extend_from_slice(&into[..count]).is_err() {
                    return Err(ReplyReadEnd::Memory);
                }
                left -= count as u64;
            }
            ReadStep::End => return Err(ReplyReadEnd::NoReply),
            ReadStep::Failed => return Err(ReplyReadEnd::LinkFault),
        }
    }
    Ok(Bytes::from_vec(body))
}

/// Copies a body of so many bytes from a link to a sink, by pieces of at most the buffer's length, each as it comes. It takes
/// no memory.
pub fn copy_body<L: Source, K: Sink>(
    link: &mut L,
    sink: &mut K,
    len: u64,
    buffer: &mut [u8],
) -> Copied
    requires room { 0 < length buffer.old }
    ensures stays { L.source_stays link.old link.new }
    ensures sink_stays { K.sink_stays sink.old sink.new }
    ensures copies { Copies len (L.left link.old) (L.read_faults link.old) (K.got sink.old) (K.write_faults sink.old)
        result (L.left link.new) (L.read_faults link.new) (K.got sink.new) (K.write_faults sink.new) }
{
    let mut done = 0;
    while done < len {
        let room = (len - done).min(buffer.len() as u64) as usize;
        let into = &mut buffer[..room];
        match link.read(into) {
            ReadStep::Took(count) => match write_all(sink, &into[..count]) {
                Ok(()) => done += count as u64,
                Err(SinkFault) => return Copied::SinkFault,
            },
            ReadStep::End => return Copied::Ended(done),
            ReadStep::Failed => return Copied::LinkFault(done),
        }
    }
    Copied::Whole
}
