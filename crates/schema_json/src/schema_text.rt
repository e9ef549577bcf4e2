//! Schemas in JSON.

ghost use Rattle.std.specs.Prelude.{◌≡◌, ◌≢◌, IfOk, IfErr, map};
ghost use Rattle.serde_json.specs.View.{view};
ghost use Rattle.schema_json.specs.Schemas as spec;
ghost use Rattle.schema_json.specs.Entries.{seen};
ghost use Rattle.schema_json.specs.Fields.{field_of};
ghost use Rattle.json_keys.specs.Faults.{Gives, Passes};
ghost use Rattle.table_schema.specs.Valid.{IsValidSchema};

use crate::Entry;
use crate::entry::read_lists;
use crate::field_text::read_field;
use data_types::Seq;
use json_keys::{TextFault, check_not, check_object, check_unused, read_json, required_text};
use serde_json::Value as Json;
use std::alloc::Global;
use table_schema::{Field, Schema};

/// The schema that a text in JSON is, with the keys of Pinot's schemas.
///
/// Fields have the types `INT`, `LONG` and `STRING` and one value a row. Keys that are not checked
/// are ignored, and a key whose value is `null` counts as absent. The fault is the first one in the
/// order of the checks.
pub fn read_schema(alloc: Global, bytes: &[u8]) -> Result<Schema, TextFault>
    ensures ok { IfOk result (λ schema. spec.schema_read bytes.now ≡ Ok schema) }
    ensures err { IfErr result
        (λ fault. fault ≢ TextFault.NoMemory → spec.schema_read bytes.now ≡ Err fault) }
    ensures valid { IfOk result (λ schema. IsValidSchema schema) }
{
    let json = read_json(alloc, bytes)?;
    schema_of(alloc, &json)
}

fn schema_of(alloc: Global, json: &Json) -> Result<Schema, TextFault>
    ensures { Gives (spec.schema_finding (view json.now)) (spec.schema_of (view json.now)) result }
{
    check_head(alloc, json)?;
    let entries = read_lists(alloc, json)?;
    let fields = read_fields(alloc, entries.as_slice())?;
    Ok(Schema { fields })
}

fn check_head(alloc: Global, json: &Json) -> Result<(), TextFault>
    ensures { Passes (spec.head_finding (view json.now)) result }
{
    check_object(alloc, "", json)?;
    required_text(alloc, "", "schemaName", json)?;
    check_unused(alloc, "", "timeFieldSpec", json)?;
    check_unused(alloc, "", "complexFieldSpecs", json)?;
    check_not(alloc, true, "", "enableColumnBasedNullHandling", json)
}

fn read_fields(alloc: Global, entries: &[Entry<'_>]) -> Result<Seq<Field>, TextFault>
    ensures { Gives (spec.fields_finding (map seen entries.now))
        (map field_of (map seen entries.now)) result }
{
    let mut fields = Seq::new(alloc);
    for entry in entries {
        let field = read_field(alloc, fields.as_slice(), entry)?;
        fields.push(field)?;
    }
    Ok(fields)
}
