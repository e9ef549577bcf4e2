//! What the checks accept is valid: a law, which is the contract of a function that does nothing.

ghost use Rattle.std.specs.Prelude.{◌≡◌, None};
ghost use Rattle.serde_json.specs.Data.{Data};
ghost use Rattle.table_schema.specs.declared.field.Schema.{Schema};
ghost use Rattle.settings_json.specs.TableTexts.{settings_finding, settings_of};
ghost use Rattle.table_schema.specs.Valid.{IsValidSchema};
ghost use Rattle.table_schema.specs.ValidSettings.{IsValidSettings};

/// A value in JSON that passes the checks of settings gives valid ones, with sorted columns,
/// indexes and star-trees, beside a valid schema.
pub fn settings_law()
    ensures accepted { (schema : Schema) (d : Data) → IsValidSchema schema
        → settings_finding schema.fields d ≡ None
        → IsValidSettings schema.fields (settings_of schema.fields d) }
{}
