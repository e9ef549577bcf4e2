//! Columns that settings name.

ghost use Rattle.std.specs.Prelude.{◌≡◌, ◌≤◌, length, IfOk, IfErr, Some, None};
ghost use Rattle.serde_json.specs.View.{view};
ghost use Rattle.json_keys.specs.NamedColumns as spec;
ghost use Rattle.table_schema.specs.Columns.{number_of, is_member as is_among_numbers};
ghost use Rattle.json_keys.specs.Keys.{text_finding};
ghost use Rattle.json_keys.specs.Faults.{Refuses, at_place};

use crate::{KeyKind, TextFault, place_fault};
use serde_json::Value as Json;
use std::alloc::Global;
use table_schema::Field;

/// The text at a place of the array at `path`.
pub fn text_at<'v>(
    alloc: Global,
    path: &str,
    place: usize,
    json: &'v Json,
) -> Result<&'v str, TextFault>
    ensures ok { IfOk result
        (λ text. text_finding (at_place path.now place) (view json.now) ≡ None) }
    ensures text { IfOk result (λ text. text.now ≡ spec.text_of (view json.now)) }
    ensures err { IfErr result (Refuses (text_finding (at_place path.now place) (view json.now))) }
{
    match json.as_str() {
        Some(text) => Ok(text),
        None => Err(place_fault(alloc, KeyKind::WrongKind, path, place)),
    }
}

/// The number of the field that is named at a place of the array at `path`.
pub fn column_at(
    alloc: Global,
    fields: &[Field],
    path: &str,
    place: usize,
    json: &Json,
) -> Result<u16, TextFault>
    requires { length fields.now ≤ 64 }
    ensures ok { IfOk result (λ number.
        spec.column_finding fields.now (at_place path.now place) (view json.now) ≡ None) }
    ensures number { IfOk result
        (λ number. number_of fields.now (spec.text_of (view json.now)) ≡ Some number) }
    ensures err { IfErr result
        (Refuses (spec.column_finding fields.now (at_place path.now place) (view json.now))) }
{
    let name = text_at(alloc, path, place, json)?;
    match Field::number_of(fields, name.as_bytes()) {
        Some(number) => Ok(number),
        None => Err(place_fault(alloc, KeyKind::UnknownColumn, path, place)),
    }
}

/// Whether a number is among others.
pub fn is_member(numbers: &[u16], number: u16) -> bool
    ensures { result ≡ is_among_numbers numbers.now number }
{
    numbers.contains(&number)
}
