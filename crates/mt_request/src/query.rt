//! The query of a request target.
ghost use Rattle.std.specs.Prelude.{◌≡◌, IfOk};
ghost use Rattle.std.specs.Option.{option_copied};
ghost use Rattle.mt_request.specs.Query.{first_pair, limit_in, names_metadata, page_of, query_of, stand_in, stand_named};

use mt_base::{Bytes, Text};
use mt_bytes::read_decimal;
use mt_path::query_at;
use mt_types::JobStand;
use std::alloc::{AllocError, Global};

/// A page has at most so many rows.
const LARGEST_PAGE: u64 = 1_024;

/// A page has so many rows where it isn't said.
const USUAL_PAGE: u64 = 256;

/// The page of a directory that a query asks for.
#[derive(Debug, PartialEq, Eq, Drop)]
pub struct Page {
    /// The name that it begins with, or the next one.
    pub marker: Bytes,
    /// How many rows it has at most, 1 to 1,024.
    pub limit: u64,
}

/// What stands behind the first `?` of a target.
pub fn query_of(target: &[u8]) -> &[u8]
    ensures { result.now ≡ query_of target.now }
{
    match query_at(target) {
        Some(place) => &target[place + 1..],
        None => &[],
    }
}

// The value of the first pair of a name.
fn first_pair(alloc: Global, name: &str, query: &[u8]) -> Result<Option<Text>, AllocError>
    ensures { IfOk result (λ value. value ≡ first_pair name.now query.now) }
{
    for pair in form_urlencoded::parse(alloc, query) {
        let (key, value) = pair?;
        if key.as_str() == name {
            return Ok(Some(Text::from_string(value.into_owned(alloc)?)));
        }
    }
    Ok(None)
}

// The most rows of a page; none where a value is no limit.
fn limit_in(value: Option<&Text>) -> Option<u64>
    ensures { result ≡ limit_in (option_copied value.entry) }
{
    match value {
        None => Some(USUAL_PAGE),
        Some(text) => match read_decimal(text.as_bytes()) {
            Some(n) if 1 <= n && n <= LARGEST_PAGE => Some(n),
            _ => None,
        },
    }
}

/// The page that a query asks for; none where its limit isn't 1 to 1,024.
#[tactic(auto, unfolding(crate::specs::Query::page_of))]
pub fn page_of(alloc: Global, query: &[u8]) -> Result<Option<Page>, AllocError>
    ensures { IfOk result (λ page. page ≡ page_of query.now) }
{
    let limit = first_pair(alloc, "limit", query)?;
    let Some(limit) = limit_in(limit.as_ref()) else {
        return Ok(None);
    };
    let marker = match first_pair(alloc, "marker", query)? {
        Some(text) => Bytes::from_slice(alloc, text.as_bytes())?,
        None => Bytes::from_vec(Vec::new(alloc)),
    };
    Ok(Some(Page { marker, limit }))
}

/// Whether a query names `metadata`, whatever its value: it asks to change metadata alone.
#[tactic(auto, unfolding(crate::specs::Query::names_metadata))]
pub fn names_metadata(alloc: Global, query: &[u8]) -> Result<bool, AllocError>
    ensures { IfOk result (λ named. named ≡ names_metadata query.now) }
{
    Ok(first_pair(alloc, "metadata", query)?.is_some())
}

// How jobs are to stand, by its name.
fn stand_named(text: &str) -> Option<JobStand>
    ensures { result ≡ stand_named text.now }
{
    if text == "running" {
        return Some(JobStand::Running);
    }
    if text == "done" {
        return Some(JobStand::Done);
    }
    None
}

/// How the jobs are to stand that a query asks for: no matter how where it isn't said; `None` where what is said is neither `running`
/// nor `done`.
#[tactic(auto, unfolding(crate::specs::Query::stand_in))]
pub fn stand_in(alloc: Global, query: &[u8]) -> Result<Option<Option<JobStand>>, AllocError>
    ensures { IfOk result (λ stand. stand ≡ stand_in query.now) }
{
    match first_pair(alloc, "state", query)? {
        None => Ok(Some(None)),
        Some(text) => match stand_named(text.as_str()) {
            Some(stand) => Ok(Some(Some(stand))),
            None => Ok(None),
        },
    }
}
