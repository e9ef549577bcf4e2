//! A file is checked: whether it is the image of some rows.
ghost use Rattle.std.specs.Prelude.{◌≡◌, IfOk, length};
ghost use Rattle.outside.specs.Seen.{seen};
ghost use Rattle.values.specs.Columns.{rows_of};
ghost use Rattle.segment_file.specs.Names.{IsSegmentOf};
ghost use Rattle.segment_check.specs.Calls.{ChecksImage, CountsImage};

use crate::codes::{decoded_columns, read_codes};
use crate::compare::compare;
use crate::head::read_file_head;
use outside::Shelf;
use segment_file::HeadFault;
use std::alloc::Global;
use table_schema::Table;
use values::{Columns, Rows};

/// The rows of which a file is the image under a table and a name, column by column, or the part
/// that is wrong. No byte of the file is read more than twice.
pub fn check_columns<S: Shelf>(
    alloc: Global,
    shelf: &mut S,
    file: &str,
    name: &str,
    table: &Table,
) -> Result<Columns, HeadFault>
    requires { IsSegmentOf table.now name.now }
    ensures checks { ChecksImage rows_of table.now name.now file.now
        (seen S.Shelf shelf.old) (seen S.Shelf shelf.new) result }
    ensures width { IfOk result (λ t. length t.columns ≡ length table.now.schema.fields) }
{
    let read = match read_file_head(alloc, shelf, file, name, table) {
        Ok(read) => read,
        Err(fault) => return Err(fault),
    };
    let coded = match read_codes(alloc, shelf, table, name, &read) {
        Ok(coded) => coded,
        Err(fault) => return Err(fault),
    };
    let columns = decoded_columns(alloc, &coded)?;
    match compare(alloc, shelf, file, name, table, &read, coded) {
        Ok(()) => Ok(columns),
        Err(fault) => Err(fault),
    }
}

/// How many rows a file is the image of under a table and a name, or the part that is wrong. The
/// rows are not made.
pub fn count_image<S: Shelf>(
    alloc: Global,
    shelf: &mut S,
    file: &str,
    name: &str,
    table: &Table,
) -> Result<u32, HeadFault>
    requires { IsSegmentOf table.now name.now }
    ensures { CountsImage table.now name.now file.now
        (seen S.Shelf shelf.old) (seen S.Shelf shelf.new) result }
{
    let read = match read_file_head(alloc, shelf, file, name, table) {
        Ok(read) => read,
        Err(fault) => return Err(fault),
    };
    let coded = match read_codes(alloc, shelf, table, name, &read) {
        Ok(coded) => coded,
        Err(fault) => return Err(fault),
    };
    let rows = coded.rows;
    match compare(alloc, shelf, file, name, table, &read, coded) {
        Ok(()) => Ok(rows),
        Err(fault) => Err(fault),
    }
}

/// The same, as one list of values a row.
pub fn check_image<S: Shelf>(
    alloc: Global,
    shelf: &mut S,
    file: &str,
    name: &str,
    table: &Table,
) -> Result<Rows, HeadFault>
    requires { IsSegmentOf table.now name.now }
    ensures { ChecksImage (λ rows. rows) table.now name.now file.now
        (seen S.Shelf shelf.old) (seen S.Shelf shelf.new) result }
{
    match check_columns(alloc, shelf, file, name, table) {
        Ok(columns) => Ok(columns.rows(alloc)?),
        Err(fault) => Err(fault),
    }
}
