//! Arrays of columns that settings name.

ghost use Rattle.std.specs.Prelude.{◌≡◌, ◌==◌, IfOk, IfErr, None, map};
ghost use Rattle.serde_json.specs.Find.{as_str};
ghost use Rattle.serde_json.specs.View.{view};
ghost use Rattle.json_keys.specs.NamedColumns as spec;
ghost use Rattle.json_keys.specs.Keys.{items_at};
ghost use Rattle.json_keys.specs.Faults.{Passes, Refuses};

use data_types::Seq;
use json_keys::{TextFault, below, column_at, optional_array};
use serde_json::Value as Json;
use std::alloc::Global;
use table_schema::{Field, Fields};
use values::NoMemory;

/// The array of a key, each place of which has the name of a field.
pub(crate) fn columns<'v>(
    alloc: Global,
    fields: Fields,
    base: &str,
    key: &str,
    json: &'v Json,
) -> Result<&'v [Json], TextFault>
    ensures ok { IfOk result
        (λ items. spec.columns_finding fields.entry.all.now base.now key.now (view json.now)
        ≡ None) }
    ensures items { IfOk result (λ items. map view items.now ≡ items_at key.now (view json.now)) }
    ensures err { IfErr result
        (Refuses (spec.columns_finding fields.entry.all.now base.now key.now (view json.now))) }
{
    let items = optional_array(alloc, base, key, json)?;
    let path = below(alloc, base, key)?;
    check_places(alloc, fields, path.as_str(), items)?;
    Ok(items)
}

fn check_places(alloc: Global, fields: Fields, path: &str, items: &[Json]) -> Result<(), TextFault>
    ensures { Passes (spec.column_places fields.entry.all.now path.now
        (map view items.now)) result }
{
    for (place, item) in items.iter().enumerate() {
        column_at(alloc, fields.all, path, place, item)?;
    }
    Ok(())
}

/// Which fields an array names.
pub(crate) fn named(alloc: Global, fields: &[Field], items: &[Json]) -> Result<Seq<bool>, NoMemory>
    ensures { IfOk result (λ flags. flags ≡ spec.named fields.now (map view items.now)) }
{
    let mut flags = Seq::with_capacity(alloc, fields.len())?;
    for field in fields {
        flags.push(has_text(items, field.name.as_slice()))?;
    }
    Ok(flags)
}

fn has_text(items: &[Json], name: &[u8]) -> bool
    ensures { result ≡ spec.has_text (map view items.now) name.now }
{
    for item in items {
        if is_the_text(item, name) {
            return true;
        }
    }
    false
}

fn is_the_text(json: &Json, name: &[u8]) -> bool
    ensures { result ≡ spec.is_the_text name.now (as_str (view json.now)) }
{
    match json.as_str() {
        Some(text) => text.as_bytes() == name,
        None => false,
    }
}
