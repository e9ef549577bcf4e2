//! Values one after the other, as a column.
ghost use Rattle.std.specs.Prelude.{◌≡◌, [], IfOk};
ghost use Rattle.std.specs.List.{All};
ghost use Rattle.values.specs.Kinds.{is_of};
ghost use Rattle.value_ids.specs.Dictionary.{Fits};

use data_types::FieldKind;
use std::alloc::Global;
use values::{Column, NoMemory, Value};

/// The column of these values, which are of that kind.
pub fn column_of(alloc: Global, kind: FieldKind, values: &[Value]) -> Result<Column, NoMemory>
    requires { All (Fits kind) values.now }
    ensures { IfOk result (λ column. column.values ≡ values.now) }
{
    let mut column = empty_column(alloc, kind);
    'values: for value in values {
        column.push(value)?;
    }
    Ok(column)
}

// A column of the kind without any values yet.
fn empty_column(alloc: Global, kind: FieldKind) -> Column
    ensures { result ≡ record { are_texts = is_of kind (Value.Text []); values = [] } }
{
    match kind {
        FieldKind::Int | FieldKind::Long => Column::numbers(alloc),
        FieldKind::Text => Column::texts(alloc),
    }
}
