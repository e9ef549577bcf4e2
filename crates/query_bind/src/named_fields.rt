//! The fields that a condition names.

ghost use Rattle.std.specs.Prelude.{◌≡◌, ◌==◌, flat_map};
ghost use Rattle.std.specs.List.{list_all};
ghost use Rattle.query_bind.specs.Conjuncts as spec;
ghost use Rattle.table_schema.specs.ValidQuery.{fields_of};

use table_schema::Wide;

/// The field that is named where no other one is.
pub(crate) fn only_field(wide: &Wide) -> Option<u16>
    ensures { result ≡ spec.only_field (fields_of wide.now) }
{
    let Some(field) = first_field(wide) else {
        return None;
    };
    if names_only(wide, field) {
        Some(field)
    } else {
        None
    }
}

/// The field of the first test.
#[cycle(first_field)]
fn first_field(wide: &Wide) -> Option<u16>
    ensures { result ≡ spec.first (fields_of wide.now) }
{
    match wide {
        Wide::Leaf(field, _) => Some(*field),
        Wide::All(inner) => first_field_in(inner.as_slice()),
        Wide::Any(inner) => first_field_in(inner.as_slice()),
    }
}

#[cycle(first_field)]
fn first_field_in(wides: &[Wide]) -> Option<u16>
    ensures { result ≡ spec.first (flat_map fields_of wides.now) }
{
    for wide in wides {
        if let Some(field) = first_field(wide) {
            return Some(field);
        }
    }
    None
}

/// Whether no test names another field.
#[cycle(names_only)]
fn names_only(wide: &Wide, field: u16) -> bool
    ensures { result ≡ list_all (λ other. other == field) (fields_of wide.now) }
{
    match wide {
        Wide::Leaf(own, _) => *own == field,
        Wide::All(inner) => all_name_only(inner.as_slice(), field),
        Wide::Any(inner) => all_name_only(inner.as_slice(), field),
    }
}

#[cycle(names_only)]
fn all_name_only(wides: &[Wide], field: u16) -> bool
    ensures { result ≡ list_all (λ other. other == field) (flat_map fields_of wides.now) }
{
    for wide in wides {
        if !names_only(wide, field) {
            return false;
        }
    }
    true
}
