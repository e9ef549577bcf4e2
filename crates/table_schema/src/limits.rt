//! How much a table may hold.
ghost use Rattle.std.specs.Prelude.{◌≡◌};
ghost use Rattle.table_schema.specs.ValidTable as spec;

/// The most rows that a segment with so many fields may have: 1,048,576, and 16,777,216 values.
pub fn most_rows(fields: usize) -> u32
    ensures { result ≡ spec.most_rows fields }
{
    (16_777_216 / fields.max(1)).min(1_048_576) as u32
}
