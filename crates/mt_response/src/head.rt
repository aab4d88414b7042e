//! One head of a reply (RFC 9112, sections 4 and 5).
ghost use Rattle.std.specs.Prelude.{◌≡◌, IfOk, IfSome, IfNone};
ghost use Rattle.httparse.specs.Grammar.{ResponseHead};
ghost use Rattle.httparse.specs.Spans.{IsResponseAt, IsResponseWithin};
ghost use Rattle.mt_response.specs.Reading.{ReceivesHead};
ghost use Rattle.mt_response.specs.Replies.{IsReplyHeadOf, head_of};

use crate::fields::read_fields;
use crate::reply::{ReplyHead, ReplyReadEnd};
use httparse::Status;
use httparse::spans::{EMPTY_HEADER_SPAN, HeaderSpan, ResponseSpans, parse_response};
use mt_edge::Source;
use mt_http::{HeadRead, find_head};
use std::alloc::{AllocError, Global};

/// A head has no more fields than this.
const FIELD_LIMIT: usize = 100;

// What a head says, of which the parser found these parts.
fn read_found(
    alloc: Global,
    head: &[u8],
    parts: ResponseSpans,
    spans: &[HeaderSpan],
) -> Result<ReplyHead, AllocError>
    requires within { IsResponseWithin head.now spans.now parts }
    requires reads { (h : ResponseHead) × IsResponseAt head.now spans.now parts h }
    ensures { IfOk result (λ says. (h : ResponseHead) → IsResponseAt head.now spans.now parts h → says ≡ head_of h) }
{
    let fields = read_fields(alloc, head, &spans[..parts.headers])?;
    Ok(ReplyHead {
        status: parts.code,
        fields,
    })
}

// What a head says, or none where the bytes are not, as a whole, one reply head.
fn read_response(alloc: Global, head: &[u8]) -> Result<Option<ReplyHead>, AllocError>
    ensures some { IfOk result (λ found. IfSome found (λ says. (h : ResponseHead)
        × IsReplyHeadOf head.now h × (head_of h ≡ says))) }
    ensures none { IfOk result (λ found. IfNone found ((h : ResponseHead) → ¬ (IsReplyHeadOf head.now h))) }
{
    let mut spans = [EMPTY_HEADER_SPAN; FIELD_LIMIT];
    match parse_response(head, &mut spans) {
        Ok(Status::Complete(parts)) if parts.len == head.len() => {
            Ok(Some(read_found(alloc, head, parts, &spans)?))
        }
        _ => Ok(None),
    }
}

/// Reads the head at the front of a link, an interim one too, and no byte past it.
pub fn read_head<L: Source>(alloc: Global, link: &mut L) -> Result<ReplyHead, ReplyReadEnd>
    ensures stays { L.source_stays link.old link.new }
    ensures read { ReceivesHead (L.left link.old) (L.read_faults link.old)
        result (L.left link.new) (L.read_faults link.new) }
{
    match find_head(alloc, link) {
        HeadRead::Whole(head) => match read_response(alloc, head.as_slice()) {
            Ok(Some(head)) => Ok(head),
            Ok(None) => Err(ReplyReadEnd::NoReply),
            Err(_) => Err(ReplyReadEnd::Memory),
        },
        HeadRead::End => Err(ReplyReadEnd::NoReply),
        HeadRead::Truncated => Err(ReplyReadEnd::NoReply),
        HeadRead::TooLong => Err(ReplyReadEnd::NoReply),
        HeadRead::SourceFault => Err(ReplyReadEnd::LinkFault),
        HeadRead::Memory => Err(ReplyReadEnd::Memory),
    }
}
