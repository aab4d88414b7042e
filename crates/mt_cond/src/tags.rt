//! Lists of entity tags, in the fields If-Match and If-None-Match.
ghost use Rattle.std.specs.Prelude.{◌≡◌, ◌==◌, ◌&&◌, not, IfOk};
ghost use Rattle.std.specs.List.{list_any};
ghost use Rattle.std.specs.Option.{option_map};
ghost use Rattle.mt_types.specs.Fields.{values_of};
ghost use Rattle.mt_cond.specs.Tags.{has_any, has_strong, joined, object_tag, tag_list, tag_of, tags_in, unquoted, with_piece};

use mt_base::trimmed;
use mt_ident::uuid_number;
use mt_types::{Field, Sequence, is_named};
use std::alloc::{AllocError, Global};

/// The kind of the identifiers that are etags of objects.
const OBJECT: u8 = 1;

/// An entity tag of an object (RFC 9110, section 8.8.3).
#[derive(Clone, Copy, Debug, PartialEq, Eq)]
pub struct Tag {
    /// The number of the object whose etag it is.
    pub number: u64,
    /// Whether it is marked as weak.
    pub weak: bool,
}

/// What stands in If-Match or If-None-Match.
#[derive(Debug, PartialEq, Eq, Drop)]
pub enum TagList {
    /// `*`: any object.
    Any,
    /// The tags of objects. What is no object's etag is left out, since it matches none.
    Tags(Sequence<Tag>),
}

impl TagList {
    /// The list that the fields of a name hold together, or none where there is no such field.
    pub(crate) fn read(
        alloc: Global,
        fields: &[Field],
        name: &str,
    ) -> Result<Option<TagList>, AllocError>
        ensures { IfOk result (λ list. list ≡ tag_list (values_of name.now fields.now)) }
    {
        let Some(value) = joined(alloc, fields, name)? else {
            return Ok(None);
        };
        if trimmed(value.as_slice()) == b"*".as_slice() {
            return Ok(Some(TagList::Any));
        }
        Ok(Some(TagList::Tags(tags_in(alloc, value.as_slice())?)))
    }

    /// Whether it is `*` or has the etag of this object, weak or not.
    pub(crate) fn has_any(&self, number: u64) -> bool
        ensures { result ≡ has_any number self.now }
    {
        match self {
            TagList::Any => true,
            TagList::Tags(tags) => some_is(tags.as_slice(), number),
        }
    }

    /// Whether it is `*` or has the etag of this object, not marked as weak.
    pub(crate) fn has_strong(&self, number: u64) -> bool
        ensures { result ≡ has_strong number self.now }
    {
        match self {
            TagList::Any => true,
            TagList::Tags(tags) => some_is_strong(tags.as_slice(), number),
        }
    }
}

// Whether a tag is the etag of this object.
fn some_is(tags: &[Tag], number: u64) -> bool
    ensures { result ≡ list_any (λ t. t.number == number) tags.now }
{
    tags.iter().any(|tag| tag.number == number)
}

// Whether a tag that is not weak is the etag of this object.
fn some_is_strong(tags: &[Tag], number: u64) -> bool
    ensures { result ≡ list_any (λ t. t.number == number && not t.weak) tags.now }
{
    tags.iter().any(|tag| tag.number == number && !tag.weak)
}

// The values of the fields of a name, with a comma between each two (RFC 9110, section 5.3).
fn joined(alloc: Global, fields: &[Field], name: &str) -> Result<Option<Vec<u8>>, AllocError>
    ensures { IfOk result (λ value. option_map (λ v. v.items) value ≡ joined (values_of name.now fields.now)) }
{
    let mut value: Option<Vec<u8>> = None;
    for field in fields {
        if is_named(field, name) {
            value = Some(with_piece(alloc, value, field.value.as_slice())?);
        }
    }
    Ok(value)
}

// A value and one more piece.
fn with_piece(alloc: Global, value: Option<Vec<u8>>, piece: &[u8]) -> Result<Vec<u8>, AllocError>
    ensures { IfOk result (λ v. v.items ≡ with_piece (option_map (λ v. v.items) value) piece.now) }
{
    match value {
        None => Vec::from_slice(alloc, piece),
        Some(mut front) => {
            front.push(b',')?;
            front.extend_from_slice(piece)?;
            Ok(front)
        }
    }
}

// The tags of objects in a value.
fn tags_in(alloc: Global, value: &[u8]) -> Result<Sequence<Tag>, AllocError>
    ensures { IfOk result (λ tags. tags ≡ tags_in value.now) }
{
    let tags = value
        .split(|b| *b == b',')
        .filter_map(|piece| tag_of(trimmed(piece)))
        .collect(alloc)?;
    Ok(Sequence::from_vec(tags))
}

// The tag that a piece is, if it is an object's.
fn tag_of(piece: &[u8]) -> Option<Tag>
    ensures { result ≡ tag_of piece.now }
{
    match piece.strip_prefix(b"W/") {
        Some(text) => object_tag(true, text),
        None => object_tag(false, piece),
    }
}

// The tag of a text in quotes or not.
fn object_tag(weak: bool, text: &[u8]) -> Option<Tag>
    ensures { result ≡ object_tag weak text.now }
{
    let number = uuid_number(OBJECT, unquoted(text))?;
    Some(Tag { number, weak })
}

// A text without one pair of double quotes around it.
fn unquoted(text: &[u8]) -> &[u8]
    ensures { result.now ≡ unquoted text.now }
{
    if text.len() < 2 || !text.starts_with(b"\"") || !text.ends_with(b"\"") {
        return text;
    }
    &text[1..text.len() - 1]
}
