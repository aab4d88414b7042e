//! The head of a reply, behind interim ones (RFC 9110, section 15.2).
ghost use Rattle.std.specs.Prelude.{◌≡◌};
ghost use Rattle.mt_response.specs.Reading.{Receives};
ghost use Rattle.mt_response.specs.Replies as said;
ghost use Rattle.mt_response.specs.Replies.{most_interim};

use crate::head::read_head;
use crate::reply::{ReplyHead, ReplyReadEnd};
use mt_edge::Source;
use std::alloc::Global;

/// So many interim heads may stand before a reply.
const MOST_INTERIM: u8 = 100;

/// Whether a status is that of an interim reply, behind which another comes: 100 to 199. It takes no memory.
pub fn is_interim(status: u16) -> bool
    ensures { result ≡ said.is_interim status }
{
    100 <= status && status < 200
}

// Reads the head behind at most so many interim ones.
fn read_behind<L: Source>(alloc: Global, link: &mut L, most: u8) -> Result<ReplyHead, ReplyReadEnd>
    ensures stays { L.source_stays link.old link.new }
    ensures read { Receives most (L.left link.old) (L.read_faults link.old)
        result (L.left link.new) (L.read_faults link.new) }
{
    match read_head(alloc, link) {
        Ok(head) => {
            if is_interim(head.status) {
                if most == 0 {
                    return Err(ReplyReadEnd::NoReply);
                }
                return read_behind(alloc, link, most - 1);
            }
            Ok(head)
        }
        Err(end) => Err(end),
    }
}

/// Reads the head of the reply at the front of a link, and no byte past it. Up to 100 interim heads (of a status of 100 to
/// 199) before it are passed over. A head has at most 65,536 bytes, with the empty lines before it, and 100 fields; it takes
/// memory in proportion to its length.
pub fn read_reply_head<L: Source>(alloc: Global, link: &mut L) -> Result<ReplyHead, ReplyReadEnd>
    ensures stays { L.source_stays link.old link.new }
    ensures read { Receives most_interim (L.left link.old) (L.read_faults link.old)
        result (L.left link.new) (L.read_faults link.new) }
{
    read_behind(alloc, link, MOST_INTERIM)
}
