//! The replies of the store. `content-length` and `connection` follow from a reply when it is written.
ghost use Rattle.std.specs.Prelude.{◌≡◌, ◌≤◌, ◌<◌, ◌^◌, [], IfOk};
ghost use Rattle.mt_reply.specs.Replies as words;

use crate::fields::{
    add_more, add_object, add_stamp, digest_field, etag_field, field, live_fields, modified_field,
    number_field, part_field,
};
use crate::stamp::Stamp;
use mt_base::{Bytes, Duplicate, LAST_MOMENT, Sequence};
use mt_error::Refused;
use mt_types::{Field, LiveText, Object, Reply, ReplyBody};
use std::alloc::{AllocError, Global};

/// The type of a page of a directory.
const PAGE_TYPE: &[u8; 41] = b"application/x-json-stream; type=directory";

// A reply of this status with these fields and what every reply says.
fn reply_of<B: Drop>(
    alloc: Global,
    status: u16,
    stamp: Stamp,
    mut fields: Vec<Field>,
    body: ReplyBody<B>,
) -> Result<Reply<B>, AllocError>
    requires { stamp.moment ≤ LAST_MOMENT }
    ensures { IfOk result (λ reply. reply ≡ words.reply_of status stamp fields.items body) }
{
    add_stamp(&mut fields, alloc, stamp)?;
    Ok(Reply {
        status,
        fields: Sequence::from_vec(fields),
        body,
        closes: stamp.closes,
    })
}

// No bytes.
fn nothing<B>(alloc: Global) -> ReplyBody<B>
    ensures { result ≡ ReplyBody.Held [] }
{
    ReplyBody::Held(Bytes::from_vec(Vec::new(alloc)))
}

/// The reply to what is done where there is nothing more to say, as to a put of a directory or a delete (204).
pub fn done_reply<B: Drop>(alloc: Global, stamp: Stamp) -> Result<Reply<B>, AllocError>
    requires { stamp.moment ≤ LAST_MOMENT }
    ensures { IfOk result (λ reply. reply ≡ words.done_reply stamp) }
{
    reply_of(alloc, 204, stamp, Vec::new(alloc), nothing(alloc))
}

/// The reply to a put of an object or a link: the number, the moment and the digest of the new object (204).
pub fn stored_reply<B: Drop>(
    alloc: Global,
    stamp: Stamp,
    number: u64,
    mtime: u64,
    digest: &[u8; 16],
) -> Result<Reply<B>, AllocError>
    requires moment { stamp.moment ≤ LAST_MOMENT }
    requires number { number < 2 ^ 62 }
    requires mtime { mtime ≤ LAST_MOMENT }
    ensures { IfOk result (λ reply. reply ≡ words.stored_reply stamp number mtime digest.now) }
{
    let mut fields = Vec::new(alloc);
    fields.push(digest_field(alloc, "computed-md5", digest)?)?;
    fields.push(etag_field(alloc, number)?)?;
    fields.push(modified_field(alloc, mtime)?)?;
    reply_of(alloc, 204, stamp, fields, nothing(alloc))
}

/// The reply to a GET of an object: all of its bytes, so many, of this digest (200).
pub fn object_reply<B: Duplicate>(
    alloc: Global,
    stamp: Stamp,
    object: &Object<B>,
    digest: &[u8; 16],
    size: u64,
) -> Result<Reply<B>, AllocError>
    requires moment { stamp.moment ≤ LAST_MOMENT }
    requires number { object.now.number < 2 ^ 62 }
    requires mtime { object.now.mtime ≤ LAST_MOMENT }
    ensures { IfOk result (λ reply. reply ≡ words.object_reply stamp object.now digest.now size) }
{
    let mut fields = Vec::new(alloc);
    fields.push(digest_field(alloc, "content-md5", digest)?)?;
    add_object(&mut fields, alloc, object)?;
    let body = object.body.copy(alloc)?;
    let body = ReplyBody::Part {
        body,
        from: 0,
        to: size,
    };
    reply_of(alloc, 200, stamp, fields, body)
}

/// The reply to a GET of a part of an object of this size: the bytes from one place to before another (206; RFC 9110,
/// section 15.3.7).
pub fn part_reply<B: Duplicate>(
    alloc: Global,
    stamp: Stamp,
    object: &Object<B>,
    from: u64,
    to: u64,
    size: u64,
) -> Result<Reply<B>, AllocError>
    requires moment { stamp.moment ≤ LAST_MOMENT }
    requires number { object.now.number < 2 ^ 62 }
    requires mtime { object.now.mtime ≤ LAST_MOMENT }
    requires part { from < to }
    ensures { IfOk result (λ reply. reply ≡ words.part_reply stamp object.now from to size) }
{
    let mut fields = Vec::new(alloc);
    fields.push(part_field(alloc, from, to, size)?)?;
    add_object(&mut fields, alloc, object)?;
    let body = object.body.copy(alloc)?;
    let body = ReplyBody::Part { body, from, to };
    reply_of(alloc, 206, stamp, fields, body)
}

/// The reply to a GET of an object of this number and moment that the reader has already (304; RFC 9110, section 15.4.5).
pub fn unchanged_reply<B: Drop>(
    alloc: Global,
    stamp: Stamp,
    number: u64,
    mtime: u64,
) -> Result<Reply<B>, AllocError>
    requires moment { stamp.moment ≤ LAST_MOMENT }
    requires number { number < 2 ^ 62 }
    requires mtime { mtime ≤ LAST_MOMENT }
    ensures { IfOk result (λ reply. reply ≡ words.unchanged_reply stamp number mtime) }
{
    let mut fields = Vec::new(alloc);
    fields.push(etag_field(alloc, number)?)?;
    fields.push(modified_field(alloc, mtime)?)?;
    reply_of(alloc, 304, stamp, fields, nothing(alloc))
}

/// The reply to a GET of a directory: how many children it has, and the text of a page of them (200).
pub fn page_reply<B: Drop>(
    alloc: Global,
    stamp: Stamp,
    count: u64,
    text: Bytes,
) -> Result<Reply<B>, AllocError>
    requires { stamp.moment ≤ LAST_MOMENT }
    ensures { IfOk result (λ reply. reply ≡ words.page_reply stamp count text) }
{
    let mut fields = Vec::new(alloc);
    fields.push(field(alloc, "content-type", PAGE_TYPE)?)?;
    fields.push(number_field(alloc, "result-set-size", count)?)?;
    reply_of(alloc, 200, stamp, fields, ReplyBody::Held(text))
}

/// The reply to a POST that made a job, which is at this path (201; RFC 9110, section 15.3.2).
pub fn made_reply<B: Drop>(
    alloc: Global,
    stamp: Stamp,
    location: &[u8],
) -> Result<Reply<B>, AllocError>
    requires { stamp.moment ≤ LAST_MOMENT }
    ensures { IfOk result (λ reply. reply ≡ words.made_reply stamp location.now) }
{
    let mut fields = Vec::new(alloc);
    fields.push(field(alloc, "location", location)?)?;
    reply_of(alloc, 201, stamp, fields, nothing(alloc))
}

/// The reply to what a job is asked to do by and by: to end its input, to be done (202).
pub fn taken_reply<B: Drop>(alloc: Global, stamp: Stamp) -> Result<Reply<B>, AllocError>
    requires { stamp.moment ≤ LAST_MOMENT }
    ensures { IfOk result (λ reply. reply ≡ words.taken_reply stamp) }
{
    reply_of(alloc, 202, stamp, Vec::new(alloc), nothing(alloc))
}

/// The reply to a GET of a text of a job: how many lines it has, but of the status, and the text (200).
pub fn live_reply<B: Drop>(
    alloc: Global,
    stamp: Stamp,
    text: LiveText,
    count: u64,
    body: Bytes,
) -> Result<Reply<B>, AllocError>
    requires { stamp.moment ≤ LAST_MOMENT }
    ensures { IfOk result (λ reply. reply ≡ words.live_reply stamp text count body) }
{
    let fields = live_fields(alloc, text, count)?;
    reply_of(alloc, 200, stamp, fields, ReplyBody::Held(body))
}

/// The reply to a request that is refused: its code and words as a JSON object, with `allow` of a 405 and
/// `content-range` of a 416.
pub fn error_reply<B: Drop>(
    alloc: Global,
    stamp: Stamp,
    refused: Refused,
) -> Result<Reply<B>, AllocError>
    requires { stamp.moment ≤ LAST_MOMENT }
    ensures { IfOk result (λ reply. reply ≡ words.error_reply stamp refused) }
{
    let mut fields = Vec::new(alloc);
    fields.push(field(alloc, "content-type", b"application/json")?)?;
    add_more(&mut fields, alloc, refused.more)?;
    let body = ReplyBody::Held(refused.code.body(alloc)?);
    reply_of(alloc, refused.code.status(), stamp, fields, body)
}
