//! The fields of a table.

ghost use Rattle.std.specs.Prelude.{◌≡◌, ◌<◌, ◌≤◌, length, IfSome};
ghost use Rattle.table_schema.specs.Columns as spec;

use data_types::{FieldKind, Name, Seq};
use values::Value;

/// What a field is for, as the list of the schema that names it says.
#[derive(Clone, Copy, Debug, PartialEq, Eq)]
pub enum Role {
    Dimension,
    Metric,
    DateTime,
}

/// A column of a table.
#[derive(Debug, Drop)]
pub struct Field {
    /// 1 to 128 printable ASCII characters, none of them a space, `"`, `,` or `*`.
    pub name: Name,
    pub kind: FieldKind,
    pub role: Role,
    /// What is in a row that has no value of the field.
    pub default: Value,
}

impl Field {
    /// The number of the field of that name.
    pub fn number_of(fields: &[Field], name: &[u8]) -> Option<u16>
        requires { length fields.now ≤ 64 }
        ensures number { result ≡ spec.number_of fields.now name.now }
        ensures within { IfSome result (λ number. number < length fields.now) }
    {
        for (number, field) in fields.iter().enumerate() {
            if field.name.as_slice() == name {
                return Some(number as u16);
            }
        }
        None
    }
}

/// 1 to 64 fields with distinct names: dimensions, then metrics, then date-times.
///
/// The number of a field is its place in this list, from 0.
#[derive(Debug, Drop)]
pub struct Schema {
    pub fields: Seq<Field>,
}
