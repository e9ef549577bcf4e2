//! What comes of the check of a segment's file. The shelf has the file under every name.
ghost use Rattle.table_schema.specs.ValidTable.{IsValidTable};

use crate::counting::CountingShelf;
use segment_check::{check_columns, count_image};
use segment_file::{HeadFault, is_segment_name};
use std::alloc::{AllocError, Global};
use table_schema::Table;

/// The number of rows of which a file is the image, or the part of it that is wrong.
pub fn checked(
    alloc: Global,
    shelf: &mut CountingShelf,
    name: &str,
    table: &Table,
) -> Result<String, AllocError>
    requires { IsValidTable table.now }
{
    if !is_segment_name(name) {
        return String::from_str(alloc, "not tried");
    }
    match check_columns(alloc, shelf, name, name, table) {
        Ok(columns) => format!(in alloc; "{} rows", columns.len()),
        Err(HeadFault::NotASegment(part)) => format!(in alloc; "{part:?}"),
        Err(fault) => format!(in alloc; "{fault:?}"),
    }
}

/// The same by the call that makes no rows.
pub fn counted(
    alloc: Global,
    shelf: &mut CountingShelf,
    name: &str,
    table: &Table,
) -> Result<String, AllocError>
    requires { IsValidTable table.now }
{
    if !is_segment_name(name) {
        return String::from_str(alloc, "not tried");
    }
    match count_image(alloc, shelf, name, name, table) {
        Ok(rows) => format!(in alloc; "{rows} rows"),
        Err(HeadFault::NotASegment(part)) => format!(in alloc; "{part:?}"),
        Err(fault) => format!(in alloc; "{fault:?}"),
    }
}

/// What both say, or what each does.
pub fn agreed(
    alloc: Global,
    shelf: &mut CountingShelf,
    name: &str,
    table: &Table,
) -> Result<String, AllocError>
    requires { IsValidTable table.now }
{
    let rows = checked(alloc, shelf, name, table)?;
    let count = counted(alloc, shelf, name, table)?;
    if rows.as_str() == count.as_str() {
        Ok(rows)
    } else {
        format!(in alloc; "{rows}, but {count}")
    }
}

/// How many bytes are read to check a file, and how many it has.
pub fn cost(alloc: Global, file: &[u8], name: &str, table: &Table) -> Result<String, AllocError>
    requires { IsValidTable table.now }
{
    let mut shelf = CountingShelf::new(file.to_vec(alloc)?);
    let _ = counted(alloc, &mut shelf, name, table)?;
    format!(in alloc; "{} of {}", shelf.taken(), file.len())
}
