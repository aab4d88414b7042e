//! A reply to a request for a page of a directory.
ghost use Rattle.std.specs.Prelude.{◌≡◌, codes, IfOk};
ghost use Rattle.std.specs.Option.{option_copied};
ghost use Rattle.mt_page.specs.Pages.{rows_of_page};
ghost use Rattle.mt_script.specs.declared.end.ClientEnd.TheVariants.{Refused};
ghost use Rattle.mt_script.specs.Ends.{with_text};
ghost use Rattle.mt_script.specs.Script.{is_page, marker_bytes, page_of, page_or_bad};

use crate::end::{ClientEnd, Closing};
use crate::refusal::{refused, silent};
use mt_ask::PageAsk;
use mt_base::Bytes;
use mt_page::{PageRows, read_page};
use mt_response::ReplyHead;
use mt_types::first_value;
use std::alloc::{AllocError, Global};

// Whether the type of a reply is that of a page of a directory.
fn is_page(head: &ReplyHead) -> bool
    ensures { result ≡ is_page head.now }
{
    match first_value(head.fields.as_slice(), "content-type") {
        Some(value) => value == b"application/x-json-stream; type=directory".as_slice(),
        None => false,
    }
}

// No bytes, where there is no marker.
fn marker_bytes(marker: Option<&Bytes>) -> &[u8]
    ensures { result.now ≡ marker_bytes (option_copied marker.entry) }
{
    match marker {
        Some(name) => name.as_slice(),
        None => b"",
    }
}

// How a run ends at a page of something else than a directory.
fn no_directory(alloc: Global) -> Result<Closing, AllocError>
    ensures { IfOk result (λ e. e ≡ with_text (codes "not a directory\n") Refused) }
{
    Ok(Closing {
        text: Bytes::from_slice(alloc, b"not a directory\n")?,
        end: ClientEnd::Refused,
    })
}

// The rows of a page of this directory.
fn rows_of(
    alloc: Global,
    ask: &PageAsk,
    body: &[u8],
) -> Result<Result<PageRows, Closing>, AllocError>
    ensures { IfOk result (λ page. page ≡ page_or_bad (rows_of_page ask.now.directory (marker_bytes ask.now.marker) body.now)) }
{
    match read_page(
        alloc,
        &ask.directory,
        marker_bytes(ask.marker.as_ref()),
        body,
    )? {
        Some(rows) => Ok(Ok(rows)),
        None => Ok(Err(silent(alloc, ClientEnd::BadReply))),
    }
}

/// What a reply to a request for a page is: the rows of the page, which is judged as a whole, or what the run ends with. It is
/// `Refused` with a line, `CODE: MESSAGE` of the body where the status isn't 200, or `not a directory` where the reply is no page
/// of one; and `BadReply` where no such body, or no page from the marker on, stands there. The answer is an error for want of memory
/// alone.
pub fn judge_page(
    alloc: Global,
    ask: &PageAsk,
    head: &ReplyHead,
    body: &[u8],
) -> Result<Result<PageRows, Closing>, AllocError>
    ensures { IfOk result (λ page. page ≡ page_of ask.now head.now body.now) }
{
    if head.status != 200 {
        return Ok(Err(refused(alloc, body)?));
    }
    if is_page(head) {
        rows_of(alloc, ask, body)
    } else {
        Ok(Err(no_directory(alloc)?))
    }
}
