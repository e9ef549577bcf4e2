//! What comes of the head of a segment's file. The shelf has the file under every name.
ghost use Rattle.table_schema.specs.ValidTable.{IsValidTable};

use crate::counting::CountingShelf;
use segment_file::{HeadFault, is_segment_name};
use segment_head::{open_head, read_head};
use std::alloc::{AllocError, Global};
use table_schema::Table;

/// The number of rows of a file's head, or the part of it that is wrong.
pub fn opened(
    alloc: Global,
    shelf: &mut CountingShelf,
    name: &str,
    table: &Table,
) -> Result<String, AllocError>
    requires { IsValidTable table.now }
{
    if !is_segment_name(name) {
        return String::from_str(alloc, "not tried");
    }
    match read_head(alloc, shelf, name, name, table) {
        Ok(head) => format!(in alloc; "{} rows", head.rows()),
        Err(HeadFault::NotASegment(part)) => format!(in alloc; "{part:?}"),
        Err(fault) => format!(in alloc; "{fault:?}"),
    }
}

/// How many bytes are read to open a head, to count a column's values, to load its dictionary, to
/// do both again, to read the nodes of the first star-tree, and to read the whole head.
pub fn costs(
    alloc: Global,
    shelf: &mut CountingShelf,
    name: &str,
    table: &Table,
) -> Result<String, AllocError>
    requires { IsValidTable table.now }
{
    match try_costs(alloc, shelf, name, table) {
        Ok(costs) => Ok(costs),
        Err(fault) => format!(in alloc; "{fault:?}"),
    }
}

fn try_costs(
    alloc: Global,
    shelf: &mut CountingShelf,
    name: &str,
    table: &Table,
) -> Result<String, HeadFault>
    requires { IsValidTable table.now }
{
    if !is_segment_name(name) || table.schema.fields.is_empty() {
        return Ok(String::from_str(alloc, "not tried")?);
    }
    let mut head = open_head(alloc, shelf, name, name, table)?;
    let opened = shelf.taken();
    let _ = head.count(alloc, shelf, table, 0)?;
    let counted = shelf.taken();
    head.load_dictionary(alloc, shelf, table, 0)?;
    let loaded = shelf.taken();
    let _ = head.count(alloc, shelf, table, 0)?;
    head.load_dictionary(alloc, shelf, table, 0)?;
    let again = shelf.taken();
    if !table.settings.trees.is_empty() {
        let _ = head.read_tree(alloc, shelf, table, 0)?;
    }
    let nodes = shelf.taken();
    let _ = read_head(alloc, shelf, name, name, table)?;
    let whole = shelf.taken();
    Ok(format!(in alloc; "{opened} {counted} {loaded} {again} {nodes} {whole}")?)
}
