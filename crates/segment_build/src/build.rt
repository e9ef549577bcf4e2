//! The file of a segment is made.
ghost use Rattle.std.specs.Prelude.{◌≡◌, ◌<◌, ◌++◌, length, Err, IfOk};
ghost use Rattle.std.specs.List.{concat};
ghost use Rattle.table_schema.specs.ValidTable.{AreRows, IsValidTable};
ghost use Rattle.values.specs.Columns.{ListedColumns, rows_of};
ghost use Rattle.segment_file.specs.Image.{image};
ghost use Rattle.segment_file.specs.Names.{IsSegmentName};
ghost use Rattle.segment_build.specs.Coded.{AreCoded, columns_in};
ghost use Rattle.segment_build.specs.Growing.{IsBuilt};
ghost use Rattle.segment_build.specs.Made.{file_bytes};
ghost use Rattle.segment_build.specs.Merging.{IsKeptFile, MakesFile};

use crate::coded::CodedColumns;
use crate::coding::code_columns;
use crate::file::{front_of, push_all};
use crate::order::row_order;
use crate::sections::{Sections, column_sections};
use crate::trees::{grow_trees, merge_trees};
use crate::{BuildFault, MadeFile, columns_of};
use outside::{Bytes, NoMemory, Seq};
use star_table::StarTable;
use std::alloc::Global;
use table_schema::Table;
use values::{Columns, Rows};

/// The file of a segment of these rows, which are kept column by column.
pub fn build_columns(
    alloc: Global,
    table: &Table,
    name: &str,
    columns: &Columns,
) -> Result<Bytes, BuildFault>
    requires valid { IsValidTable table.now }
    requires name { IsSegmentName name.now }
    requires width { length columns.now.columns ≡ length table.now.schema.fields }
    requires rows { AreRows table.now.schema.fields (rows_of columns.now) }
    ensures image { IfOk result (λ bytes. bytes ≡ image 1 table.now name.now
        (rows_of columns.now)) }
    ensures built { IsBuilt table.now (rows_of columns.now) result }
{
    let made = match make_file(alloc, table, name, columns) {
        Ok(made) => made,
        Err(fault) => return Err(fault),
    };
    let MadeFile {
        front: mut file,
        sections,
    } = made;
    push_all(&sections, &mut file)?;
    Ok(Seq::from_vec(file))
}

/// The same, as its front and its sections.
///
/// The rows are put in the stable order of the sorted column, where there is one. Documents of the
/// star-trees are merged, and one column after the other is coded; then one tree after the other is
/// built. There is no file where a tree takes more bytes than one may.
pub fn make_file(
    alloc: Global,
    table: &Table,
    name: &str,
    columns: &Columns,
) -> Result<MadeFile, BuildFault>
    requires valid { IsValidTable table.now }
    requires name { IsSegmentName name.now }
    requires width { length columns.now.columns ≡ length table.now.schema.fields }
    requires rows { AreRows table.now.schema.fields (rows_of columns.now) }
    ensures image { IfOk result (λ made. file_bytes made
        ≡ image 1 table.now name.now (rows_of columns.now)) }
    ensures built { IsBuilt table.now (rows_of columns.now) result }
{
    let _count = columns.len();
    let coded = code_columns(alloc, table, columns)?;
    make_of_codes(alloc, table, name, coded)
}

/// The same of columns that are let go as soon as they are coded.
pub(crate) fn make_own_file(
    alloc: Global,
    table: &Table,
    name: &str,
    columns: Columns,
) -> Result<MadeFile, BuildFault>
    requires valid { IsValidTable table.now }
    requires name { IsSegmentName name.now }
    requires width { length columns.columns ≡ length table.now.schema.fields }
    requires rows { AreRows table.now.schema.fields (rows_of columns) }
    ensures image { IfOk result (λ made. file_bytes made
        ≡ image 1 table.now name.now (rows_of columns)) }
    ensures built { IsBuilt table.now (rows_of columns) result }
{
    let _count = columns.len();
    let coded = code_columns(alloc, table, &columns)?;
    drop(columns);
    make_of_codes(alloc, table, name, coded)
}

/// The file of a segment of these rows.
pub fn build_image(
    alloc: Global,
    table: &Table,
    name: &str,
    rows: &Rows,
) -> Result<Bytes, BuildFault>
    requires valid { IsValidTable table.now }
    requires name { IsSegmentName name.now }
    requires rows { AreRows table.now.schema.fields rows.now }
    ensures image { IfOk result (λ bytes. bytes ≡ image 1 table.now name.now rows.now) }
    ensures built { IsBuilt table.now rows.now result }
{
    let columns = columns_of(alloc, table.schema.fields.as_slice(), rows)?;
    build_columns(alloc, table, name, &columns)
}

/// The same of columns that are coded. They are let go before the trees are built.
pub fn make_of_codes(
    alloc: Global,
    table: &Table,
    name: &str,
    coded: CodedColumns<'_>,
) -> Result<MadeFile, BuildFault>
    requires name { IsSegmentName name.now }
    requires coded { AreCoded table.now coded }
    ensures { MakesFile table.now name.now (rows_of (columns_in coded.entry)) result }
{
    let kept = kept_of(alloc, table, coded)?;
    make_kept(alloc, table, name, kept)
}

/// What is kept of coded columns when they are let go.
#[derive(Drop)]
pub(crate) struct KeptFile {
    pub rows: u32,
    pub sections: Sections,
    pub merged: Vec<StarTable>,
}

// The documents of the trees are merged, and the sections of the columns are made.
fn kept_of(alloc: Global, table: &Table, coded: CodedColumns<'_>) -> Result<KeptFile, NoMemory>
    requires rows { AreCoded table.now coded }
    ensures { IfOk result (IsKeptFile table.now (columns_in coded.entry)) }
{
    let rows = coded.rows;
    let order = row_order(alloc, table, &coded)?;
    let merged = merge_trees(alloc, table, &coded)?;
    let sections = column_sections(alloc, table, coded, &order)?;
    Ok(KeptFile {
        rows,
        sections,
        merged,
    })
}

// The file of what is kept of columns.
fn make_kept(
    alloc: Global,
    table: &Table,
    name: &str,
    kept: KeptFile,
) -> Result<MadeFile, BuildFault>
    requires name { IsSegmentName name.now }
    requires kept { (t : ListedColumns) × IsKeptFile table.now t kept }
    ensures { (t : ListedColumns) → IsKeptFile table.now t kept →
        MakesFile table.now name.now (rows_of t) result }
{
    let KeptFile {
        rows,
        sections,
        merged,
    } = kept;
    let trees = match grow_trees(alloc, table, merged) {
        Ok(trees) => trees,
        Err(fault) => return Err(fault),
    };
    let sections = sections.into_list(alloc, trees)?;
    let front = front_of(alloc, table, name, rows, &sections)?;
    Ok(MadeFile { front, sections })
}
