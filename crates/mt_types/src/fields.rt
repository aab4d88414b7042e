//! The fields of one name (RFC 9110, section 5.2). No call takes memory.
ghost use Rattle.std.specs.Prelude.{◌≡◌};
ghost use Rattle.std.specs.List.{list_any};
ghost use Rattle.std.specs.Option.{option_copied};
ghost use Rattle.mt_types.specs.Fields.{first_value, is_named};

use crate::object::Field;

/// Whether a field of this name is there.
pub fn has_field(fields: &[Field], name: &str) -> bool
    ensures { result ≡ list_any (is_named name.now) fields.now }
{
    fields.iter().any(|field| is_named(field, name))
}

/// The value of the first field of this name.
pub fn first_value<'a>(fields: &'a [Field], name: &str) -> Option<&'a [u8]>
    ensures { option_copied result ≡ first_value name.now fields.now }
{
    for field in fields {
        if is_named(field, name) {
            return Some(field.value.as_slice());
        }
    }
    None
}

/// Whether a field has this name.
pub fn is_named(field: &Field, name: &str) -> bool
    ensures { result ≡ is_named name.now field.now }
{
    field.name.as_str() == name
}
