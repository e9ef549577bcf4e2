//! Settings in JSON.

ghost use Rattle.std.specs.Prelude.{◌≡◌, ◌≢◌, IfOk, IfErr};
ghost use Rattle.serde_json.specs.View.{view};
ghost use Rattle.settings_json.specs.TableTexts as spec;
ghost use Rattle.json_keys.specs.Faults.{Gives};
ghost use Rattle.table_schema.specs.Valid.{IsValidSchema};
ghost use Rattle.table_schema.specs.ValidSettings.{IsValidSettings};

use data_types::Name;
use json_keys::{TextFault, key_of, read_json};
use serde_json::Value as Json;
use settings_parts::{INDEX_KEY, read_head, read_indexes, unindexed};
use std::alloc::Global;
use table_schema::{Fields, Schema, Settings};

/// The settings that a text in JSON is, with the keys of Pinot's table configurations.
///
/// The table is offline. Keys that are not checked are ignored, and a key whose value is `null`
/// counts as absent. The fault is the first one in the order of the checks.
pub fn read_settings(alloc: Global, schema: &Schema, bytes: &[u8]) -> Result<Settings, TextFault>
    requires { IsValidSchema schema.now }
    ensures ok { IfOk result
        (λ settings. spec.settings_read schema.now.fields bytes.now ≡ Ok settings) }
    ensures err { IfErr result (λ fault. fault ≢ TextFault.NoMemory
        → spec.settings_read schema.now.fields bytes.now ≡ Err fault) }
    ensures valid { IfOk result (λ settings. IsValidSettings schema.now.fields settings) }
{
    let json = read_json(alloc, bytes)?;
    let all = schema.fields.as_slice();
    let fields = Fields { all };
    settings_of(alloc, fields, &json)
}

fn settings_of(alloc: Global, fields: Fields, json: &Json) -> Result<Settings, TextFault>
    ensures { Gives (spec.settings_finding fields.entry.all.now (view json.now))
        (spec.settings_of fields.entry.all.now (view json.now)) result }
{
    let name = read_head(alloc, json)?;
    let table = Name::from_text(alloc, name)?;
    let Some(index) = key_of(json, INDEX_KEY) else {
        return Ok(unindexed(alloc, fields.all, table)?);
    };
    read_indexes(alloc, fields, table, index)
}
