//! Rows that a program made: whether they are rows of a table.
ghost use Rattle.std.specs.Prelude.{◌≡◌};
ghost use Rattle.std.specs.List.{All, list_all};
ghost use Rattle.values.specs.Kinds as kinds;
ghost use Rattle.value_ids.specs.Dictionary.{IsUnicode};
ghost use Rattle.table_schema.specs.ValidTable as table;
ghost use Rattle.embedded.specs.Rows as spec;

use data_types::FieldKind;
use table_schema::{Field, most_rows};
use values::{MOST_TEXT_BYTES, Row, Rows, Value};

/// Whether these are rows of a table of these fields, no more than there may be.
pub fn are_rows(fields: &[Field], rows: &Rows) -> bool
    ensures { result ≡ spec.are_rows fields.now rows.now }
{
    rows.len() <= most_rows(fields.len()) as usize && all_are_rows(fields, rows.as_slice())
}

fn all_are_rows(fields: &[Field], rows: &[Row]) -> bool
    ensures { result ≡ list_all (table.is_row fields.now) rows.now }
{
    rows.iter().all(|row| is_row(fields, row.as_slice()))
}

// Whether there is a value a field, of the field's kind.
fn is_row(fields: &[Field], row: &[Value]) -> bool
    ensures { result ≡ table.is_row fields.now row.now }
{
    match fields {
        [] => row.is_empty(),
        [field, fields @ ..] => match row {
            [] => false,
            [value, row @ ..] => fits(field.kind, value) && is_row(fields, row),
        },
    }
}

fn fits(kind: FieldKind, value: &Value) -> bool
    ensures { result ≡ kinds.fits kind value.now }
{
    match (kind, value) {
        (FieldKind::Int, Value::Whole(number)) => -2147483648 <= *number && *number <= 2147483647,
        (FieldKind::Long, Value::Whole(number)) => i64::MIN <= *number && *number <= i64::MAX,
        (FieldKind::Text, Value::Text(text)) => text.len() <= MOST_TEXT_BYTES,
        _ => false,
    }
}

/// To look at rows tells that their texts are UTF-8.
pub fn look_at_rows(rows: &[Row])
    ensures { All (λ row. All IsUnicode row) rows.now }
{
    for row in rows {
        look_at_row(row.as_slice());
    }
}

fn look_at_row(row: &[Value])
    ensures { All IsUnicode row.now }
{
    for value in row {
        look_at(value);
    }
}

fn look_at(value: &Value)
    ensures { IsUnicode value.now }
{
    if let Value::Text(text) = value {
        let _text = text.as_str();
    }
}
