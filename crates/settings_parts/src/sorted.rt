//! The sorted column.

ghost use Rattle.std.specs.Prelude.{◌≡◌, IfOk, IfErr, IfSome, None, map};
ghost use Rattle.std.specs.List.{list_all};
ghost use Rattle.serde_json.specs.View.{view};
ghost use Rattle.settings_parts.specs.Indexes as spec;
ghost use Rattle.json_keys.specs.Faults.{Gives, Refuses};

use json_keys::{KeyKind, TextFault, array_of, below, fault_at, key_of};
use serde_json::Value as Json;
use std::alloc::Global;
use table_schema::{Field, Fields};

const SORTED_KEY: &str = "sortedColumn";

/// The number of the sorted column: a text, or an array of at most one. An empty text names
/// nothing.
pub(crate) fn read_sorted(
    alloc: Global,
    fields: Fields,
    base: &str,
    json: &Json,
) -> Result<Option<u16>, TextFault>
    ensures { Gives (spec.sorted_finding fields.entry.all.now base.now (view json.now))
        (spec.sorted_of fields.entry.all.now (view json.now)) result }
{
    let Some(value) = key_of(json, SORTED_KEY) else {
        return Ok(None);
    };
    let path = below(alloc, base, SORTED_KEY)?;
    read_value(alloc, fields, path.as_str(), value)
}

fn read_value(
    alloc: Global,
    fields: Fields,
    path: &str,
    json: &Json,
) -> Result<Option<u16>, TextFault>
    ensures { Gives (spec.sorted_value_finding fields.entry.all.now path.now (view json.now))
        (spec.sorted_number fields.entry.all.now (spec.sorted_name (view json.now))) result }
{
    let name = sorted_name(alloc, path, json)?;
    if name.is_empty() {
        return Ok(None);
    }
    match Field::number_of(fields.all, name.as_bytes()) {
        Some(number) => Ok(Some(number)),
        None => Err(fault_at(alloc, KeyKind::UnknownColumn, path)),
    }
}

fn sorted_name<'v>(alloc: Global, path: &str, json: &'v Json) -> Result<&'v str, TextFault>
    ensures ok { IfOk result (λ name. spec.sorted_form path.now (view json.now) ≡ None) }
    ensures name { IfOk result (λ name. name.now ≡ spec.sorted_name (view json.now)) }
    ensures err { IfErr result (Refuses (spec.sorted_form path.now (view json.now))) }
{
    if let Some(text) = json.as_str() {
        return Ok(text);
    }
    let Some(items) = array_of(json) else {
        return Err(fault_at(alloc, KeyKind::WrongKind, path));
    };
    if !all_texts(items) {
        return Err(fault_at(alloc, KeyKind::WrongKind, path));
    }
    if items.len() > 1 {
        return Err(fault_at(alloc, KeyKind::TooMany, path));
    }
    Ok(first_text(items))
}

fn all_texts(items: &[Json]) -> bool
    ensures { result ≡ list_all spec.is_text (map view items.now) }
{
    for item in items {
        if !item.is_string() {
            return false;
        }
    }
    true
}

/// The text of the first item; empty where there is none.
fn first_text(items: &[Json]) -> &str
    ensures { result.now ≡ spec.first_text (map view items.now) }
{
    match items {
        [first, ..] => first.as_str().unwrap_or(""),
        [] => "",
    }
}
