//! The next message of a source.
ghost use Rattle.std.specs.Prelude.{◌≤◌, length, All, IfOk};
ghost use Rattle.mt_http.specs.Framing.{Receives, ReceivesHead, body_limit};
ghost use Rattle.mt_http.specs.Message.{IsClean};

use crate::body::read_body;
use crate::head::{HeadRead, find_head};
use crate::message::{Head, Message, MessageEnd};
use crate::request::read_request;
use mt_edge::Source;
use std::alloc::Global;

/// Reads the head at the front of a source, and no byte past it, by pieces of its lines. It takes memory in proportion
/// to its length.
pub fn read_head<S: Source>(alloc: Global, source: &mut S) -> Result<Head, MessageEnd>
    ensures stays { S.source_stays source.old source.new }
    ensures read { ReceivesHead (S.left source.old) (S.read_faults source.old)
        result (S.left source.new) (S.read_faults source.new) }
    ensures few { IfOk result (λ head. length head.fields ≤ 100) }
    // Names are tokens in lower case; values have no control byte but the tab, and no blank at either end.
    ensures clean { IfOk result (λ head. All IsClean head.fields) }
{
    match find_head(alloc, source) {
        HeadRead::Whole(head) => match read_request(alloc, head.as_slice()) {
            Ok(Some(head)) => Ok(head),
            Ok(None) => Err(MessageEnd::Bad),
            Err(_) => Err(MessageEnd::Memory),
        },
        HeadRead::End => Err(MessageEnd::End),
        HeadRead::Truncated => Err(MessageEnd::Truncated),
        HeadRead::TooLong => Err(MessageEnd::Bad),
        HeadRead::SourceFault => Err(MessageEnd::SourceFault),
        HeadRead::Memory => Err(MessageEnd::Memory),
    }
}

/// Reads the message at the front of a source, and no byte past it: its head by [`read_head`], and then its body
/// by [`read_body`].
pub fn read_message<S: Source>(alloc: Global, source: &mut S) -> Result<Message, MessageEnd>
    ensures stays { S.source_stays source.old source.new }
    ensures read { Receives (S.left source.old) (S.read_faults source.old)
        result (S.left source.new) (S.read_faults source.new) }
    ensures within { IfOk result (λ message. length message.body ≤ body_limit message.method) }
{
    let head = match read_head(alloc, source) {
        Ok(head) => head,
        Err(end) => return Err(end),
    };
    match read_body(alloc, source, &head) {
        Ok(body) => {
            let Head {
                method,
                target,
                minor,
                fields,
                framing: _,
            } = head;
            Ok(Message {
                method,
                target,
                minor,
                fields,
                body,
            })
        }
        Err(end) => Err(end),
    }
}
