//! How long the sections of a segment's file are.
ghost use Rattle.std.specs.Prelude.{◌≡◌, length, map, IfOk};
ghost use Rattle.table_schema.specs.ValidTable.{AreRows, IsValidTable};
ghost use Rattle.segment_file.specs.Image.{front_of};
ghost use Rattle.segment_file.specs.Names.{IsSegmentName};
ghost use Rattle.segment_file.specs.Ordered.{ordered};
ghost use Rattle.segment_build.specs.Growing.{IsBuilt};

use crate::build::make_of_codes;
use crate::coding::code_columns;
use crate::file::sizes_of;
use crate::{BuildFault, columns_of};
use outside::Seq;
use std::alloc::Global;
use table_schema::Table;
use values::Rows;

/// How long each section of the file of a segment of these rows is, in the order of its directory.
pub fn section_lengths(
    alloc: Global,
    table: &Table,
    name: &str,
    rows: &Rows,
) -> Result<Seq<u64>, BuildFault>
    requires valid { IsValidTable table.now }
    requires name { IsSegmentName name.now }
    requires rows { AreRows table.now.schema.fields rows.now }
    ensures lengths { IfOk result (λ lengths. lengths
        ≡ (front_of 1 table.now (ordered table.now.settings.sorted rows.now)).sizes) }
    ensures built { IsBuilt table.now rows.now result }
{
    let columns = columns_of(alloc, table.schema.fields.as_slice(), rows)?;
    let _count = columns.len();
    let coded = code_columns(alloc, table, &columns)?;
    drop(columns);
    match make_of_codes(alloc, table, name, coded) {
        Ok(made) => Ok(Seq::from_vec(sizes_of(alloc, &made.sections)?)),
        Err(fault) => Err(fault),
    }
}
