//! Rows of values.

ghost use Rattle.std.specs.Prelude.{◌≡◌, IfOk};

use crate::{NoMemory, Value};
use data_types::Seq;
use std::alloc::Global;

/// One value a column.
pub type Row = Seq<Value>;

/// Rows of one table.
pub type Rows = Seq<Row>;

/// An equal row; texts are shared with this one.
pub fn copy_row(alloc: Global, row: &Row) -> Result<Row, NoMemory>
    ensures { IfOk result (λ copy. copy ≡ row.now) }
{
    let mut copy = Seq::with_capacity(alloc, row.len())?;
    for value in row.as_slice() {
        copy.push(value.copy(alloc)?)?;
    }
    Ok(copy)
}
