//! The metadata of an object and the copies that are asked for, as the fields of its put give them.
ghost use Rattle.std.specs.Prelude.{◌≡◌, ◌≤◌, fold, insert, length, IfOk, OnOk};
ghost use Rattle.std.specs.List.{list_all};
ghost use Rattle.std.specs.Option.{option_copied};
ghost use Rattle.mt_http.specs.ReplyText.{placed};
ghost use Rattle.mt_request.specs.Metadata.{is_metadata_field, is_metadata_fine, level_of, metadata_of};

use mt_base::Duplicate;
use mt_bytes::read_decimal;
use mt_types::{Field, LARGEST_DURABILITY, is_metadata_name, is_plain_text};
use std::alloc::{AllocError, Global};

fn is_metadata_field(field: &Field) -> bool
    ensures { result ≡ is_metadata_field field.now }
{
    field.name.as_bytes().starts_with(b"m-")
}

fn is_metadata_fine(field: &Field) -> bool
    ensures { result ≡ is_metadata_fine field.now }
{
    is_metadata_name(field.name.as_bytes()) && is_plain_text(field.value.as_slice())
}

/// Whether names and values are such as metadata have.
pub fn are_fine(fields: &[Field]) -> bool
    ensures { result ≡ list_all is_metadata_fine fields.now }
{
    fields.iter().all(|field| is_metadata_fine(field))
}

// Where a field is placed: before the first whose name is above its own.
fn place_of(sorted: &[Field], field: &Field) -> usize
    ensures within { result ≤ length sorted.now }
    ensures place { placed field.now sorted.now ≡ insert sorted.now result field.now }
{
    for (at, other) in sorted.iter().enumerate() {
        if field.name.as_bytes().cmp(other.name.as_bytes()).is_lt() {
            return at;
        }
    }
    sorted.len()
}

// Places a field among those that are in order.
fn place(sorted: &mut Vec<Field>, field: Field) -> Result<(), AllocError>
    ensures { OnOk result (sorted.new.items ≡ placed field sorted.old.items) }
{
    let at = place_of(sorted.as_slice(), &field);
    match sorted.insert(at, field) {
        Ok(()) => Ok(()),
        Err(_) => Err(AllocError),
    }
}

/// The fields of metadata, by name, those of one name as they came. There are at most 100 fields, and few are metadata.
pub fn metadata_of(alloc: Global, fields: &[Field]) -> Result<Vec<Field>, AllocError>
    ensures { IfOk result (λ v. v.items ≡ metadata_of fields.now) }
{
    let mut out = Vec::new(alloc);
    for field in fields {
        if is_metadata_field(field) {
            place(&mut out, field.copy(alloc)?)?;
        }
    }
    Ok(out)
}

/// The copies that are asked for: none where there is no value; a value that is no level.
pub fn level_of(value: Option<&[u8]>) -> Option<Option<u8>>
    ensures { result ≡ level_of (option_copied value.entry) }
{
    match value {
        None => Some(None),
        Some(text) => match read_decimal(text) {
            Some(n) if 1 <= n && n <= LARGEST_DURABILITY as u64 => Some(Some(n as u8)),
            _ => None,
        },
    }
}
