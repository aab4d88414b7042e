//! The conditions of a request, and what they say of an object (RFC 9110, section 13).
ghost use Rattle.std.specs.Prelude.{◌≡◌, IfOk};
ghost use Rattle.std.specs.Option.{option_copied};
ghost use Rattle.mt_cond.specs.Conditions.{conditions_of, date_in, expected_by, judged, news_by};

use crate::tags::TagList;
use mt_ident::read_http_date;
use mt_types::{Field, Fields, Object, first_value};
use std::alloc::{AllocError, Global};

/// The conditions of a request.
#[derive(Debug, PartialEq, Eq, Drop)]
pub struct Conditions {
    /// If-Match.
    pub if_match: Option<TagList>,
    /// If-None-Match.
    pub if_none_match: Option<TagList>,
    /// The date of If-Unmodified-Since, in seconds since 1970, where it can be read.
    pub if_unmodified_since: Option<u64>,
    /// The date of If-Modified-Since, in seconds since 1970, where it can be read.
    pub if_modified_since: Option<u64>,
}

/// What conditions say.
#[derive(Clone, Copy, Debug, PartialEq, Eq)]
pub enum Judged {
    /// The request may be carried out.
    Go,
    /// The reader has the object already (304).
    NotModified,
    /// A condition does not hold (412).
    Failed,
}

impl Conditions {
    /// The conditions in the fields of a message. Tags are those of all fields of the name, a date that of the first
    /// one; a date that can't be read is as if it were not there.
    #[tactic(auto, unfolding(crate::specs::Conditions::conditions_of))]
    pub fn read(alloc: Global, fields: &Fields) -> Result<Conditions, AllocError>
        ensures { IfOk result (λ c. c ≡ conditions_of fields.now) }
    {
        let fields = fields.as_slice();
        Ok(Conditions {
            if_match: TagList::read(alloc, fields, "if-match")?,
            if_none_match: TagList::read(alloc, fields, "if-none-match")?,
            if_unmodified_since: date_in(fields, "if-unmodified-since"),
            if_modified_since: date_in(fields, "if-modified-since"),
        })
    }
}

/// What conditions say of the object that stands there, or of none. `is_read` says that the method is GET or
/// HEAD. Takes no memory.
#[tactic(auto, unfolding(crate::specs::Conditions::judged))]
pub fn judge<B>(conditions: &Conditions, object: Option<&Object<B>>, is_read: bool) -> Judged
    ensures { result ≡ judged conditions.now (option_copied object.entry) is_read }
{
    if !is_expected(conditions, object) {
        return Judged::Failed;
    }
    if is_news(conditions, object, is_read) {
        return Judged::Go;
    }
    if is_read {
        Judged::NotModified
    } else {
        Judged::Failed
    }
}

// Whether If-Match holds, or else If-Unmodified-Since.
fn is_expected<B>(conditions: &Conditions, object: Option<&Object<B>>) -> bool
    ensures { result ≡ expected_by conditions.now.if_match conditions.now.if_unmodified_since (option_copied object.entry) }
{
    match (&conditions.if_match, object) {
        (Some(list), Some(object)) => list.has_strong(object.number),
        (Some(_), None) => false,
        (None, Some(object)) => match conditions.if_unmodified_since {
            Some(date) => object.mtime <= date,
            None => true,
        },
        (None, None) => true,
    }
}

// Whether If-None-Match holds, or else, for a read, If-Modified-Since.
fn is_news<B>(conditions: &Conditions, object: Option<&Object<B>>, is_read: bool) -> bool
    ensures { result ≡ news_by conditions.now.if_none_match conditions.now.if_modified_since is_read (option_copied object.entry) }
{
    let Some(object) = object else {
        return true;
    };
    if let Some(list) = &conditions.if_none_match {
        return !list.has_any(object.number);
    }
    match conditions.if_modified_since {
        Some(date) => !is_read || object.mtime > date,
        None => true,
    }
}

// The date in the first field of a name, if it can be read.
fn date_in(fields: &[Field], name: &str) -> Option<u64>
    ensures { result ≡ date_in name.now fields.now }
{
    read_http_date(first_value(fields, name)?)
}
