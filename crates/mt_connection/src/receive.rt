//! The head of the next message, and the interim reply behind it.
ghost use Rattle.std.specs.Prelude.{◌≤◌, length, ⊤};
ghost use Rattle.mt_connection.specs.Sides.{side_of};
ghost use Rattle.mt_connection.specs.Steps.{HasFewFields, Receives};

use mt_edge::Both;
use mt_http::{Head, MessageEnd, read_head, wants_interim, write_interim};
use std::alloc::Global;

/// What became of the head of the next message.
#[derive(Drop)]
pub(crate) enum Received {
    /// It was read, and the interim reply was written where it asks for one.
    Head(Head),
    /// No head was read, and nothing was written.
    Nothing(MessageEnd),
    /// The sink failed within the interim reply, and counted it.
    SinkFault,
}

/// Reads the head of the next message, and writes the interim reply where it asks for one, before its body is read (RFC 9110,
/// section 10.1.1).
pub(crate) fn receive<L: Both>(alloc: Global, link: &mut L) -> Received
    ensures receives { Receives result (side_of L.left L.got L.read_faults L.write_faults link.old) (side_of L.left L.got L.read_faults L.write_faults link.new) }
    ensures few { HasFewFields result }
    ensures stays { L.stays link.old link.new }
{
    let head = match read_head(alloc, link) {
        Ok(head) => head,
        Err(end) => return Received::Nothing(end),
    };
    if wants_interim(&head) {
        if write_interim(link).is_err() {
            return Received::SinkFault;
        }
    }
    Received::Head(head)
}
