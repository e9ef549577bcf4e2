//! How a segment's file is given to a depot: by how many appends, of how many bytes at most.
ghost use Rattle.std.specs.Prelude.{◌≡◌, length};
ghost use Rattle.segment_file.specs.Names.{IsSegmentName};
ghost use Rattle.table_schema.specs.ValidTable.{AreRows, IsValidTable};
ghost use Rattle.values.specs.Columns.{rows_of};

use crate::noting::NotingDepot;
use csv_ingest::read_columns;
use segment_build::{build_columns, write_columns};
use std::alloc::{AllocError, Global};
use table_schema::Table;
use values::Columns;

/// How many appends write the file of these rows, the most bytes of one, and those of all beside
/// those of the file.
pub fn appends(
    alloc: Global,
    table: &Table,
    name: &str,
    columns: Columns,
) -> Result<String, AllocError>
    requires valid { IsValidTable table.now }
    requires name { IsSegmentName name.now }
    requires width { length columns.columns ≡ length table.now.schema.fields }
    requires rows { AreRows table.now.schema.fields (rows_of columns) }
{
    let Ok(file) = build_columns(alloc, table, name, &columns) else {
        return String::from_str(alloc, "not built");
    };
    let mut depot = NotingDepot::new(alloc);
    if write_columns(alloc, &mut depot, table, name, columns).is_err() {
        return String::from_str(alloc, "not written");
    }
    let (mut most, mut all) = (0u64, 0u64);
    for length in depot.lengths() {
        most = most.max(*length);
        all = all.saturating_add(*length);
    }
    let count = depot.lengths().len();
    let size = file.len();
    format!(in alloc; "{count} appends of at most {most} bytes, {all} of {size}")
}
