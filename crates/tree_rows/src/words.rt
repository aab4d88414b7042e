//! What the words of a row stand for.
use mt_cond::Conditions;
use mt_rows::{Row, Stop};
use mt_types::{Bytes, Field, Object, Path, Sequence, Text};
use std::alloc::{AllocError, Global};

/// The path of a text of the login `l`.
pub fn path_at(alloc: Global, row: &Row, place: usize) -> Result<Path, Stop> {
    match Path::plain(alloc, "l", row.bytes(place)?) {
        Ok(path) => Ok(path),
        Err(_) => Err(Stop::NoSuchRow),
    }
}

/// The conditions of the fields whose names and values stand from a place on.
pub fn conditions_from(alloc: Global, row: &Row, from: usize) -> Result<Conditions, Stop> {
    let mut fields = Sequence::new(alloc);
    for place in (from..row.len()).step_by(2) {
        fields.push(field_of(alloc, row.text(place)?, row.bytes(place.wrapping_add(1))?)?)?;
    }
    Ok(Conditions::read(alloc, &fields)?)
}

fn field_of(alloc: Global, name: &str, value: &[u8]) -> Result<Field, AllocError> {
    let name = Text::from_str(alloc, name)?;
    let value = Bytes::from_slice(alloc, value)?;
    Ok(Field { name, value })
}

/// An object of this number, whose body is no matter.
pub fn object(alloc: Global, number: u64) -> Result<Object<u64>, Stop> {
    Ok(Object {
        number,
        body: 5,
        content_type: Text::from_str(alloc, "text/plain")?,
        durability: None,
        metadata: Sequence::new(alloc),
        mtime: 7,
    })
}
