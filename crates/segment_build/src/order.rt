//! The order in which a segment has its rows.
ghost use Rattle.std.specs.Prelude.{◌≤◌, IfOk, length};
ghost use Rattle.values.specs.Columns.{rows_of};
ghost use Rattle.segment_build.specs.Arranging.{Orders, OrdersBy};
ghost use Rattle.segment_build.specs.Coded.{AreCoded, IsCoding, columns_in, row_values};

use crate::RowOrder;
use crate::coded::{CodedColumn, CodedColumns};
use inverted_lists::places_by_id;
use outside::NoMemory;
use std::alloc::Global;
use table_schema::Table;

/// The order of the rows of a table: the stable one of its sorted column, where it has one.
pub(crate) fn row_order(
    alloc: Global,
    table: &Table,
    coded: &CodedColumns,
) -> Result<RowOrder, NoMemory>
    requires rows { AreCoded table.now coded.now }
    ensures { IfOk result (λ order. Orders table.now.settings.sorted
        (rows_of (columns_in coded.now)) order) }
{
    match table.settings.sorted {
        None => Ok(RowOrder::AsGiven),
        Some(number) => order_by(alloc, &coded.columns[number as usize]),
    }
}

// The stable order of rows by a column. Its ids are sorted by counting, and where they ascend, the
// rows stay as they came.
fn order_by(alloc: Global, column: &CodedColumn) -> Result<RowOrder, NoMemory>
    requires coded { IsCoding column.now }
    requires at_most { length column.now.ids ≤ 1048576 }
    ensures { IfOk result (λ order. OrdersBy (row_values column.now) order) }
{
    let mut room = Vec::new(alloc);
    column.ids.put_all(&mut room)?;
    let ids = room.as_slice();
    if ids.is_sorted() {
        return Ok(RowOrder::AsGiven);
    }
    let places = places_by_id(alloc, ids, column.values.dictionary().count())?;
    Ok(RowOrder::ByPlaces(places))
}
