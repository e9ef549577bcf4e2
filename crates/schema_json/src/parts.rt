//! What the object of a field says: its name and its type, and what is not supported.

ghost use Rattle.std.specs.Prelude.{◌≡◌, IfOk, IfErr, map, codes, None};
ghost use Rattle.json_keys.specs.Keys.{text_at};
ghost use Rattle.serde_json.specs.View.{view};
ghost use Rattle.schema_json.specs.Fields as spec;
ghost use Rattle.table_schema.specs.Names.{is_among as is_among_names};
ghost use Rattle.json_keys.specs.Faults.{Gives, Passes, Refuses};

use data_types::FieldKind;
use json_keys::{KeyKind, TextFault, check_not, check_unused, key_fault, key_of, required_text};
use serde_json::Value as Json;
use std::alloc::Global;
use table_schema::{Field, Role, is_column_name};

/// The least `maxLength` that is supported: the most bytes of a text value.
const LEAST_MAX_LENGTH: i128 = 512;

/// Whether a field has that name.
pub fn is_among(fields: &[Field], name: &str) -> bool
    ensures { result ≡ is_among_names (map (λ field. field.name) fields.now) name.now }
{
    for field in fields {
        if field.name.as_str() == name {
            return true;
        }
    }
    false
}

/// The name, which keeps the rule of column names.
pub(crate) fn read_name<'v>(alloc: Global, base: &str, json: &'v Json) -> Result<&'v str, TextFault>
    ensures ok { IfOk result (λ name. spec.name_finding base.now (view json.now) ≡ None) }
    ensures name { IfOk result (λ name. name.now ≡ text_at (codes "name") (view json.now)) }
    ensures err { IfErr result (Refuses (spec.name_finding base.now (view json.now))) }
{
    let name = required_text(alloc, base, "name", json)?;
    if is_column_name(name.as_bytes()) {
        Ok(name)
    } else {
        Err(key_fault(alloc, KeyKind::BadName, base, "name"))
    }
}

fn kind_named(name: &str) -> Option<FieldKind>
    ensures { result ≡ spec.kind_named name.now }
{
    if name == "INT" {
        Some(FieldKind::Int)
    } else if name == "LONG" {
        Some(FieldKind::Long)
    } else if name == "STRING" {
        Some(FieldKind::Text)
    } else {
        None
    }
}

/// The type, for a metric one of numbers.
pub(crate) fn read_kind(
    alloc: Global,
    base: &str,
    role: Role,
    json: &Json,
) -> Result<FieldKind, TextFault>
    ensures { Gives (spec.type_finding base.now role (view json.now))
        (spec.kind_of (view json.now)) result }
{
    let name = required_text(alloc, base, "dataType", json)?;
    let Some(kind) = kind_named(name) else {
        return Err(key_fault(alloc, KeyKind::UnknownType, base, "dataType"));
    };
    match (role, kind) {
        (Role::Metric, FieldKind::Text) => {
            Err(key_fault(alloc, KeyKind::Unsupported, base, "dataType"))
        }
        _ => Ok(kind),
    }
}

/// The keys of what is not supported say nothing.
pub(crate) fn check_support(alloc: Global, base: &str, json: &Json) -> Result<(), TextFault>
    ensures { Passes (spec.support_finding base.now (view json.now)) result }
{
    check_not(alloc, false, base, "singleValueField", json)?;
    check_unused(alloc, base, "transformFunction", json)?;
    check_unused(alloc, base, "virtualColumnProvider", json)?;
    check_length(alloc, base, json)
}

fn check_length(alloc: Global, base: &str, json: &Json) -> Result<(), TextFault>
    ensures { Passes (spec.length_finding base.now (view json.now)) result }
{
    match key_of(json, "maxLength") {
        Some(length) if is_below(LEAST_MAX_LENGTH, length) => {
            Err(key_fault(alloc, KeyKind::Unsupported, base, "maxLength"))
        }
        _ => Ok(()),
    }
}

/// Whether it is a whole number below the limit.
fn is_below(limit: i128, json: &Json) -> bool
    ensures { result ≡ spec.is_below limit (spec.whole_number (view json.now)) }
{
    let Some(number) = json.as_number() else {
        return false;
    };
    match number.as_i128() {
        Some(whole) => whole < limit,
        None => false,
    }
}
