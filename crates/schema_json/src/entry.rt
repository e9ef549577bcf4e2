//! The places of the three lists of a schema.

ghost use Rattle.std.specs.Prelude.{◌≡◌, ◌++◌, None, OnOk, IfOk, IfErr, map};
ghost use Rattle.serde_json.specs.View.{view};
ghost use Rattle.schema_json.specs.Fields as spec;
ghost use Rattle.schema_json.specs.Entries.{seen};
ghost use Rattle.json_keys.specs.Faults.{Refuses};

use data_types::Name;
use json_keys::{KeyKind, TextFault, at_place, fault_at, optional_array};
use serde_json::Value;
use std::alloc::Global;
use table_schema::Role;
use values::NoMemory;

/// A place of one of the lists, from 0, with what is there.
#[derive(Clone, Copy)]
pub struct Entry<'v> {
    pub role: Role,
    pub place: usize,
    pub json: &'v Value,
}

/// The key of the list of a role.
fn list_key(role: Role) -> &'static str
    ensures { result.now ≡ spec.list_key role }
{
    match role {
        Role::Dimension => "dimensionFieldSpecs",
        Role::Metric => "metricFieldSpecs",
        Role::DateTime => "dateTimeFieldSpecs",
    }
}

/// Where it is in the schema, such as `metricFieldSpecs[0]`.
pub fn path_of(alloc: Global, entry: &Entry<'_>) -> Result<Name, NoMemory>
    ensures { IfOk result (λ path. path ≡ spec.path_of (seen entry.now)) }
{
    at_place(alloc, list_key(entry.role), entry.place)
}

/// Adds the places of one list.
fn push_entries<'v>(
    role: Role,
    items: &'v [Value],
    entries: &mut Vec<Entry<'v>>,
) -> Result<(), NoMemory>
    ensures { OnOk result (map seen entries.new.items
        ≡ map seen entries.old.items ++ spec.entries_from role 0 (map view items.now)) }
{
    for (place, json) in items.iter().enumerate() {
        entries.push(Entry { role, place, json })?;
    }
    Ok(())
}

/// The places of the three lists, of which there is at least one.
pub(crate) fn read_lists<'v>(alloc: Global, json: &'v Value) -> Result<Vec<Entry<'v>>, TextFault>
    ensures ok { IfOk result (λ entries. spec.lists_finding (view json.now) ≡ None) }
    ensures entries { IfOk result
        (λ entries. map seen entries.items ≡ spec.all_entries (view json.now)) }
    ensures err { IfErr result (Refuses (spec.lists_finding (view json.now))) }
{
    let dimensions = optional_array(alloc, "", list_key(Role::Dimension), json)?;
    let metrics = optional_array(alloc, "", list_key(Role::Metric), json)?;
    let date_times = optional_array(alloc, "", list_key(Role::DateTime), json)?;
    let mut entries = Vec::new(alloc);
    push_entries(Role::Dimension, dimensions, &mut entries)?;
    push_entries(Role::Metric, metrics, &mut entries)?;
    push_entries(Role::DateTime, date_times, &mut entries)?;
    if entries.is_empty() {
        return Err(fault_at(alloc, KeyKind::MissingKey, list_key(Role::Dimension)));
    }
    Ok(entries)
}
