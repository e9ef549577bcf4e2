//! The settings beside `tableIndexConfig`: the name and the type of the table, and what is not
//! supported.

ghost use Rattle.std.specs.Prelude.{◌≡◌, IfOk, IfErr, None};
ghost use Rattle.serde_json.specs.View.{view};
ghost use Rattle.settings_parts.specs.Heads as spec;
ghost use Rattle.json_keys.specs.Faults.{Passes, Refuses};

use json_keys::{KeyKind, TextFault, check_object, check_unused, fault_at, key_of, required_text};
use serde_json::Value as Json;
use std::alloc::Global;
use table_schema::is_column_name;

const INGESTION_KEY: &str = "ingestionConfig";

/// The name of the table, where the checks outside of `tableIndexConfig` pass.
pub fn read_head<'v>(alloc: Global, json: &'v Json) -> Result<&'v str, TextFault>
    ensures ok { IfOk result (λ name. spec.head_finding (view json.now) ≡ None) }
    ensures name { IfOk result (λ name. name.now ≡ spec.table_name (view json.now)) }
    ensures err { IfErr result (Refuses (spec.head_finding (view json.now))) }
{
    check_object(alloc, "", json)?;
    let name = read_table_name(alloc, json)?;
    check_type(alloc, json)?;
    check_unused(alloc, "", "upsertConfig", json)?;
    check_unused(alloc, "", "dedupConfig", json)?;
    check_ingestion(alloc, json)?;
    Ok(name)
}

fn read_table_name<'v>(alloc: Global, json: &'v Json) -> Result<&'v str, TextFault>
    ensures ok { IfOk result (λ name. spec.table_finding (view json.now) ≡ None) }
    ensures name { IfOk result (λ name. name.now ≡ spec.table_name (view json.now)) }
    ensures err { IfErr result (Refuses (spec.table_finding (view json.now))) }
{
    let name = bare_name(required_text(alloc, "", "tableName", json)?);
    if is_column_name(name.as_bytes()) {
        Ok(name)
    } else {
        Err(fault_at(alloc, KeyKind::BadName, "tableName"))
    }
}

/// The name without `_OFFLINE` at its end.
fn bare_name(name: &str) -> &str
    ensures { result.now ≡ spec.bare_name name.now }
{
    if name.ends_with("_OFFLINE") {
        &name[..name.len() - 8]
    } else {
        name
    }
}

fn check_type(alloc: Global, json: &Json) -> Result<(), TextFault>
    ensures { Passes (spec.type_finding (view json.now)) result }
{
    let name = required_text(alloc, "", "tableType", json)?;
    if is_offline(name) {
        Ok(())
    } else {
        Err(fault_at(alloc, KeyKind::Unsupported, "tableType"))
    }
}

fn is_offline(name: &str) -> bool
    ensures { result ≡ spec.is_offline name.now }
{
    name.eq_ignore_ascii_case("OFFLINE")
}

/// Rows are taken as they come.
fn check_ingestion(alloc: Global, json: &Json) -> Result<(), TextFault>
    ensures { Passes (spec.ingestion_finding (view json.now)) result }
{
    match key_of(json, INGESTION_KEY) {
        Some(ingestion) => check_ingestion_form(alloc, ingestion),
        None => Ok(()),
    }
}

fn check_ingestion_form(alloc: Global, json: &Json) -> Result<(), TextFault>
    ensures { Passes (spec.ingestion_form (view json.now)) result }
{
    check_object(alloc, INGESTION_KEY, json)?;
    check_unused(alloc, INGESTION_KEY, "transformConfigs", json)?;
    check_unused(alloc, INGESTION_KEY, "filterConfig", json)?;
    check_unused(alloc, INGESTION_KEY, "complexTypeConfig", json)?;
    check_unused(alloc, INGESTION_KEY, "aggregationConfigs", json)?;
    check_unused(alloc, INGESTION_KEY, "enrichmentConfigs", json)
}
