//! A request goes out, and its reply comes in.
ghost use Rattle.std.specs.Prelude.{◌≡◌, ◌++◌};
ghost use Rattle.mt_edge.specs.Stream.{WritesAll};
ghost use Rattle.mt_client.specs.Exchanges.{Asks, Leads, ReceivesReply, link_end};

use mt_base::Bytes;
use mt_edge::{Both, Sink, SinkFault, Source, write_all};
use mt_response::{ReplyHead, ReplyReadEnd, read_reply_body, read_reply_head, reply_len};
use mt_script::ClientEnd;
use std::alloc::Global;

/// A reply.
#[derive(Debug, PartialEq, Eq, Drop)]
pub struct Reply {
    /// Its head.
    pub head: ReplyHead,
    /// Its body.
    pub body: Bytes,
}

/// The head of a reply, and the length of its body, which is still on the link.
#[derive(Debug, PartialEq, Eq, Drop)]
pub struct Lead {
    /// The head.
    pub head: ReplyHead,
    /// The length of the body in bytes.
    pub len: u64,
}

// How a run ends where no reply was read.
pub(crate) fn link_end(end: ReplyReadEnd) -> ClientEnd
    ensures { result ≡ link_end end }
{
    match end {
        ReplyReadEnd::NoReply => ClientEnd::BadReply,
        ReplyReadEnd::LinkFault => ClientEnd::LinkFault,
        ReplyReadEnd::Memory => ClientEnd::Memory,
    }
}

/// Sends a head and a body.
pub(crate) fn send<L: Sink>(link: &mut L, head: &[u8], body: &[u8]) -> Result<(), SinkFault>
    ensures writes { WritesAll (L.got link.old) (L.write_faults link.old) (head.now ++ body.now) result (L.got link.new) (L.write_faults link.new) }
    ensures stays { L.sink_stays link.old link.new }
{
    match write_all(link, head) {
        Ok(()) => match write_all(link, body) {
            Ok(()) => Ok(()),
            Err(SinkFault) => Err(SinkFault),
        },
        Err(SinkFault) => Err(SinkFault),
    }
}

/// Reads the head of a reply whose body has at most so many bytes.
pub(crate) fn receive_head<L: Source>(
    alloc: Global,
    link: &mut L,
    limit: u64,
) -> Result<Lead, ReplyReadEnd>
    ensures stays { L.source_stays link.old link.new }
    ensures read { Leads limit (L.left link.old) (L.read_faults link.old) result (L.left link.new) (L.read_faults link.new) }
{
    let head = match read_reply_head(alloc, link) {
        Ok(head) => head,
        Err(end) => return Err(end),
    };
    match reply_len(&head, limit, false) {
        Some(len) => Ok(Lead { head, len }),
        None => Err(ReplyReadEnd::NoReply),
    }
}

/// Reads a reply whose body has at most so many bytes. It takes memory as bytes come.
pub(crate) fn receive<L: Source>(
    alloc: Global,
    link: &mut L,
    limit: u64,
) -> Result<Reply, ReplyReadEnd>
    ensures stays { L.source_stays link.old link.new }
    ensures read { ReceivesReply limit (L.left link.old) (L.read_faults link.old) result (L.left link.new) (L.read_faults link.new) }
{
    match receive_head(alloc, link, limit) {
        Ok(lead) => match read_reply_body(alloc, link, lead.len) {
            Ok(body) => {
                let Lead { head, len: _ } = lead;
                Ok(Reply { head, body })
            }
            Err(end) => Err(end),
        },
        Err(end) => Err(end),
    }
}

/// Sends a request, and reads its reply, whose body has at most so many bytes.
pub(crate) fn exchange<L: Both>(
    alloc: Global,
    link: &mut L,
    head: &[u8],
    body: &[u8],
    limit: u64,
) -> Result<Reply, ClientEnd>
    ensures stays { L.stays link.old link.new }
    ensures asks { Asks limit (head.now ++ body.now) (L.left link.old) (L.read_faults link.old) (L.got link.old) (L.write_faults link.old)
        result (L.left link.new) (L.read_faults link.new) (L.got link.new) (L.write_faults link.new) }
{
    match send(link, head, body) {
        Ok(()) => match receive(alloc, link, limit) {
            Ok(reply) => Ok(reply),
            Err(end) => Err(link_end(end)),
        },
        Err(SinkFault) => Err(ClientEnd::LinkFault),
    }
}
