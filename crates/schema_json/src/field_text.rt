//! One field of a schema.

ghost use Rattle.std.specs.Prelude.{◌≡◌, ◌∷◌, [], map, codes};
ghost use Rattle.serde_json.specs.View.{view};
ghost use Rattle.schema_json.specs.Defaults.{default_finding};
ghost use Rattle.schema_json.specs.Entries.{seen};
ghost use Rattle.schema_json.specs.Fields as spec;
ghost use Rattle.json_keys.specs.declared.fault.KeyKind.TheVariants.{DuplicateColumn};
ghost use Rattle.json_keys.specs.Faults.{Gives, below, fault_if};
ghost use Rattle.table_schema.specs.Firsts.{first_of};
ghost use Rattle.table_schema.specs.Names.{is_among as is_among_names};

use crate::defaults::read_default;
use crate::parts::{check_support, read_kind, read_name};
use crate::{Entry, is_among, path_of};
use data_types::Name;
use json_keys::{KeyKind, TextFault, check_object, fault_at, key_fault};
use std::alloc::Global;
use table_schema::Field;

/// The most fields of a schema.
pub(crate) const MOST_FIELDS: usize = 64;

/// The field that a place describes, after these fields.
pub(crate) fn read_field(
    alloc: Global,
    fields: &[Field],
    entry: &Entry<'_>,
) -> Result<Field, TextFault>
    ensures { Gives (spec.field_finding (map (λ field. field.name) fields.now) (seen entry.now))
        (spec.field_of (seen entry.now)) result }
{
    let path = path_of(alloc, entry)?;
    let base = path.as_str();
    if fields.len() >= MOST_FIELDS {
        return Err(fault_at(alloc, KeyKind::TooMany, base));
    }
    check_object(alloc, base, entry.json)?;
    let name = read_name(alloc, base, entry.json)?;
    named_field(alloc, fields, base, name, entry)
}

/// The field of that name.
fn named_field(
    alloc: Global,
    fields: &[Field],
    base: &str,
    name: &str,
    entry: &Entry<'_>,
) -> Result<Field, TextFault>
    requires { name.now ≡ spec.name_of (seen entry.now) }
    ensures { Gives (first_of
        (spec.type_finding base.now entry.now.role (view entry.now.json.now)
        ∷ spec.support_finding base.now (view entry.now.json.now)
        ∷ default_finding base.now (spec.kind_of (view entry.now.json.now))
        (view entry.now.json.now)
        ∷ fault_if (is_among_names (map (λ field. field.name) fields.now) name.now) DuplicateColumn
        (below base.now (codes "name")) ∷ []))
        (spec.field_of (seen entry.now)) result }
{
    let kind = read_kind(alloc, base, entry.role, entry.json)?;
    check_support(alloc, base, entry.json)?;
    let default = read_default(alloc, base, entry.role, kind, entry.json)?;
    if is_among(fields, name) {
        return Err(key_fault(alloc, KeyKind::DuplicateColumn, base, "name"));
    }
    Ok(Field {
        name: Name::from_text(alloc, name)?,
        kind,
        role: entry.role,
        default,
    })
}
