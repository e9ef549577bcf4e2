//! What the checks accept is valid: a law, which is the contract of a function that does nothing.

ghost use Rattle.std.specs.Prelude.{◌≡◌, None};
ghost use Rattle.serde_json.specs.Data.{Data};
ghost use Rattle.schema_json.specs.Schemas.{schema_finding, schema_of};
ghost use Rattle.table_schema.specs.Valid.{IsValidSchema};

/// A value in JSON that passes the checks of a schema gives a valid one.
pub fn schema_law()
    ensures { (d : Data) → schema_finding d ≡ None → IsValidSchema (schema_of d) }
{}
