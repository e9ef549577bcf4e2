//! The ids of columns, in the order in which a segment has its rows.
ghost use Rattle.std.specs.Prelude.{◌≡◌, ◌<◌, ◌++◌, ◌∷◌, [], length, map, get_or, IfOk, OnOk};
ghost use Rattle.values.specs.Columns.{rows_of};
ghost use Rattle.value_ids.specs.Coding.{AreBelow};
ghost use Rattle.segment_build.specs.Coded.{AreCoded, columns_in};
ghost use Rattle.segment_build.specs.Fitting.{AreOfTable};

use crate::ColumnIds;
use crate::coded::{CodedColumn, CodedColumns, ColumnValues};
use dictionary::Dictionary;
use outside::NoMemory;
use row_ids::RowIds;
use std::alloc::Global;
use table_schema::Table;
use values::Columns;

/// How the rows of a segment are put in their order.
#[derive(Drop)]
pub enum RowOrder {
    /// They came in it.
    AsGiven,
    /// The places at which they came, in the order of the segment.
    ByPlaces(Vec<u32>),
}

/// The columns of a table's rows, coded one after the other.
pub(crate) fn code_columns<'a>(
    alloc: Global,
    table: &Table,
    columns: &Columns,
) -> Result<CodedColumns<'a>, NoMemory>
    requires { AreOfTable table.now columns.now }
    ensures coded { IfOk result (AreCoded table.now) }
    ensures rows { IfOk result (λ coded. rows_of (columns_in coded) ≡ rows_of columns.now) }
{
    let rows = columns.len() as u32;
    let fields = table.schema.fields.as_slice();
    let mut all = Vec::with_capacity(alloc, fields.len())?;
    'columns: for at in 0..fields.len() {
        let column = columns.column(at);
        let (dictionary, ids) = Dictionary::of_column(alloc, fields[at].kind, column)?;
        let ids = ColumnIds::alone(RowIds::of(alloc, ids, dictionary.count())?);
        let values = ColumnValues::Own(dictionary);
        all.push(CodedColumn { values, ids })?;
    }
    Ok(CodedColumns { columns: all, rows })
}

/// What a list has at these places.
pub(crate) fn gathered<T: Copy>(
    alloc: Global,
    places: &[u32],
    list: &[T],
) -> Result<Vec<T>, NoMemory>
    requires { AreBelow (length list.now) places.now }
    ensures { IfOk result (λ v. (d : T) → v.items
        ≡ map (λ place. get_or list.now place d) places.now) }
{
    let mut gathered = Vec::with_capacity(alloc, places.len())?;
    for place in places {
        gathered.push(list[*place as usize])?;
    }
    Ok(gathered)
}
