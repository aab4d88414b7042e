//! The reply to a request that isn't refused.
ghost use Rattle.std.specs.Prelude.{◌≡◌, ◌≤◌, IfOk};
ghost use Rattle.mt_model.specs.Rows.{object_at};
ghost use Rattle.mt_answer.specs.Answer as words;
ghost use Rattle.mt_answer.specs.Judging.{len_of, md5_of};
ghost use Rattle.mt_answer.specs.Laws.{AreListable};

use crate::look::look_reply;
use mt_base::LAST_MOMENT;
use mt_cond::Conditions;
use mt_reply::{Stamp, done_reply, stored_reply};
use mt_request::Doing;
use mt_tree::Tree;
use mt_types::{Body, Entry, MOST_COMMANDS, NUMBERS_A_COMMAND, Path, Reply};
use std::alloc::{AllocError, Global};

/// The reply to a request that isn't refused, in an account of so many commands: to what is looked at, or to what is to be done, of
/// which the stamp has the position behind it. The tree is that of before, and `sum` the digest of the body of a put. It takes
/// memory for its fields, and for the page of a directory.
pub fn reply_to(
    alloc: Global,
    stamp: Stamp,
    count: u64,
    tree: &Tree<Body>,
    conditions: &Conditions,
    doing: &Doing,
    sum: &[u8; 16],
) -> Result<Reply<Body>, AllocError>
    requires moment { stamp.moment ≤ LAST_MOMENT }
    requires count { count ≤ MOST_COMMANDS }
    requires rows { AreListable tree.now }
    ensures { IfOk result (λ reply. reply ≡ words.reply_to len_of md5_of stamp count tree.now conditions.now doing.now sum.now) }
{
    match doing {
        Doing::PutObject { .. } => stored_reply(
            alloc,
            stamp,
            count * NUMBERS_A_COMMAND,
            stamp.moment,
            sum,
        ),
        Doing::PutLink { source, .. } => link_reply(alloc, stamp, tree, source),
        Doing::Look { path, page, range } => {
            look_reply(alloc, stamp, tree, conditions, path, page, range)
        }
        Doing::Nothing => done_reply(alloc, stamp),
        Doing::PutDirectory { .. } => done_reply(alloc, stamp),
        Doing::Remove { .. } => done_reply(alloc, stamp),
    }
}

// To a link: it is the object at its source, but for its moment.
#[tactic(auto, using(crate::proofs::Listable::number_there))]
fn link_reply(
    alloc: Global,
    stamp: Stamp,
    tree: &Tree<Body>,
    source: &Path,
) -> Result<Reply<Body>, AllocError>
    requires moment { stamp.moment ≤ LAST_MOMENT }
    requires rows { AreListable tree.now }
    ensures { IfOk result (λ reply. reply ≡ words.link_reply md5_of stamp (object_at tree.now source.now)) }
{
    match tree.get(source) {
        Some(Entry::Object(object)) => stored_reply(
            alloc,
            stamp,
            object.number,
            stamp.moment,
            &object.body.md5,
        ),
        _ => done_reply(alloc, stamp),
    }
}
