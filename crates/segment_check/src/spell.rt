//! The rows that a file spells, as a text.
ghost use Rattle.std.specs.Prelude.{◌≡◌};
ghost use Rattle.outside.specs.Seen.{seen};
ghost use Rattle.csv_text.specs.Rows.{rows_text};
ghost use Rattle.segment_file.specs.Names.{IsSegmentOf};
ghost use Rattle.segment_check.specs.Calls.{SpellsFile};

use crate::coded::read_coded;
use crate::head::read_file_head;
use csv_text::coded_text;
use outside::{Bytes, Shelf};
use segment_file::HeadFault;
use std::alloc::Global;
use table_schema::Table;

/// The text of the rows that a file spells under a table and a name, or the part of the first rule
/// that fails, of those of a head and then of the ids. Indexes and the documents of trees are not
/// looked at.
pub fn spell_text<S: Shelf>(
    alloc: Global,
    shelf: &mut S,
    file: &str,
    name: &str,
    table: &Table,
) -> Result<Bytes, HeadFault>
    requires { IsSegmentOf table.now name.now }
    ensures { SpellsFile (λ text rows. text ≡ rows_text table.now.schema.fields rows)
        table.now name.now file.now (seen S.Shelf shelf.old) (seen S.Shelf shelf.new) result }
{
    let read = match read_file_head(alloc, shelf, file, name, table) {
        Ok(read) => read,
        Err(fault) => return Err(fault),
    };
    let columns = match read_coded(alloc, shelf, table, name, &read) {
        Ok(columns) => columns,
        Err(fault) => return Err(fault),
    };
    let fields = table.schema.fields.as_slice();
    match coded_text(alloc, fields, &columns, read.head.rows() as usize) {
        Ok(text) => Ok(text),
        Err(_) => Err(HeadFault::NoMemory),
    }
}
