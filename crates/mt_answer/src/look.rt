//! The reply to a request that looks at a path.
ghost use Rattle.std.specs.Prelude.{◌≡◌, ◌≤◌, ◌<◌, ◌^◌, IfOk};
ghost use Rattle.mt_answer.specs.Answer as words;
ghost use Rattle.mt_answer.specs.Judging.{len_of, md5_of};
ghost use Rattle.mt_answer.specs.Laws.{AreListable};

use crate::page::page_of;
use mt_base::LAST_MOMENT;
use mt_cond::{Conditions, Range, Ranged, range_of};
use mt_reply::{Stamp, done_reply, object_reply, page_reply, part_reply, unchanged_reply};
use mt_request::Page;
use mt_store::{Found, read_object};
use mt_tree::Tree;
use mt_types::{Body, Object, Path, Reply};
use std::alloc::{AllocError, Global};

/// The reply to a request that looks at a path and isn't refused: the object that stands there, a part of it, or that the reader has
/// it already; or a page of the directory.
pub fn look_reply(
    alloc: Global,
    stamp: Stamp,
    tree: &Tree<Body>,
    conditions: &Conditions,
    path: &Path,
    page: &Option<Page>,
    range: &Option<Range>,
) -> Result<Reply<Body>, AllocError>
    requires moment { stamp.moment ≤ LAST_MOMENT }
    requires rows { AreListable tree.now }
    ensures { IfOk result (λ reply. reply ≡ words.look_reply len_of md5_of stamp tree.now conditions.now path.now page.now range.now) }
{
    match read_object(tree, path, conditions) {
        Ok(Found::Object(object)) => range_reply(alloc, stamp, object, range),
        Ok(Found::NotModified(object)) => {
            unchanged_reply(alloc, stamp, object.number, object.mtime)
        }
        Ok(Found::Directory) => listing_reply(alloc, stamp, tree, path, page),
        Err(_) => done_reply(alloc, stamp),
    }
}

// An object, or the part of it that is asked for.
fn range_reply(
    alloc: Global,
    stamp: Stamp,
    object: &Object<Body>,
    range: &Option<Range>,
) -> Result<Reply<Body>, AllocError>
    requires moment { stamp.moment ≤ LAST_MOMENT }
    requires number { object.now.number < 2 ^ 62 }
    requires mtime { object.now.mtime ≤ LAST_MOMENT }
    ensures { IfOk result (λ reply. reply ≡ words.range_reply len_of md5_of stamp object.now range.now) }
{
    let size = object.body.len;
    let Some(range) = range else {
        return object_reply(alloc, stamp, object, &object.body.md5, size);
    };
    match range_of(range, size) {
        Ranged::Whole => object_reply(alloc, stamp, object, &object.body.md5, size),
        Ranged::Part { from, to } => part_reply(alloc, stamp, object, from, to, size),
        Ranged::CannotMeet => done_reply(alloc, stamp),
    }
}

// A page of a directory.
fn listing_reply(
    alloc: Global,
    stamp: Stamp,
    tree: &Tree<Body>,
    path: &Path,
    page: &Option<Page>,
) -> Result<Reply<Body>, AllocError>
    requires moment { stamp.moment ≤ LAST_MOMENT }
    requires rows { AreListable tree.now }
    ensures { IfOk result (λ reply. reply ≡ words.listing_reply len_of stamp tree.now path.now page.now) }
{
    match page {
        Some(page) => {
            let text = page_of(alloc, tree, path, page)?;
            page_reply(alloc, stamp, tree.count(path), text)
        }
        None => done_reply(alloc, stamp),
    }
}
