//! The columns of a file are read as ids. Where a dictionary has a value of no row, the column is
//! coded anew.
ghost use Rattle.std.specs.Prelude.{◌≡◌, ◌≤◌, ◌<◌, ◌++◌, ◌∷◌, [], ℕ, List, true, IfErr, IfOk, IfSome, IsErrOf, IsSome, OnOk, get_or, length, slice_get, Some};
ghost use Rattle.outside.specs.Seen.{OnlyReads, seen};
ghost use Rattle.values.specs.Columns.{rows_of};
ghost use Rattle.value_ids.specs.Coding.{AreBelow};
ghost use Rattle.value_ids.specs.Dictionary.{Distinct};
ghost use Rattle.segment_file.specs.declared.part.Part.TheVariants as part;
ghost use Rattle.table_schema.specs.declared.table.Table.{Table};
ghost use Rattle.segment_build.specs.Coded.{AreCoded, columns_in};
ghost use Rattle.segment_build.specs.FileReads.{LogsFile};
ghost use Rattle.segment_head.specs.Heads.{AreIn, IsLoaded, place_in};
ghost use Rattle.segment_check.specs.Codes.{AreMarked, CodesRows, HaveAll, ReadsAllCodes, ReadsCodes};
ghost use Rattle.segment_check.specs.Reading.{IsSomeHead, LogsColumn};

use crate::columns::column_of;
use crate::head::FileHead;
use crate::packed::read_packed_column;
use data_types::FieldKind;
use dictionary::Dictionary;
use outside::{NoMemory, Shelf};
use row_ids::RowIds;
use segment_build::{CodedColumn, CodedColumns, ColumnIds, ColumnValues, PackedIds};
use segment_file::HeadFault;
use segment_head::Head;
use std::alloc::Global;
use table_schema::Table;
use values::Columns;

/// The columns of the rows of a file with this head, or the first whose forward index has no id of
/// one of its values for each row.
pub(crate) fn read_codes<'a, S: Shelf>(
    alloc: Global,
    shelf: &mut S,
    table: &Table,
    name: &str,
    read: &'a FileHead,
) -> Result<CodedColumns<'a>, HeadFault>
    requires { IsSomeHead table.now name.now read.now }
    ensures { ReadsAllCodes table.now read.now.head
        (seen S.Shelf shelf.old) (seen S.Shelf shelf.new) result }
{
    let fields = table.schema.fields.as_slice();
    let mut columns = Vec::with_capacity(alloc, fields.len())?;
    let mut list = Vec::new(alloc);
    'columns: for at in 0..fields.len() {
        let kind = fields[at].kind;
        match read_column_codes(alloc, shelf, kind, &read.head, at as u16, &mut list) {
            Ok(column) => keep_codes(column, &mut columns)?,
            Err(fault) => return Err(fault),
        }
    }
    let rows = read.head.rows();
    Ok(CodedColumns { columns, rows })
}

fn keep_codes<'a>(
    column: CodedColumn<'a>,
    columns: &mut Vec<CodedColumn<'a>>,
) -> Result<(), NoMemory>
    ensures { OnOk result (columns.new.items ≡ columns.old.items ++ column.entry ∷ []) }
{
    columns.push(column)?;
    Ok(())
}

// The values and the ids of the rows in a column. The ids are put into a list that is used again.
fn read_column_codes<'a, S: Shelf>(
    alloc: Global,
    shelf: &mut S,
    kind: FieldKind,
    head: &'a Head,
    column: u16,
    list: &mut Vec<u32>,
) -> Result<CodedColumn<'a>, HeadFault>
    requires loaded { IsLoaded head.now column }
    requires placed { IsSome (place_in head.now.sections (part.Forward column)) }
    requires kind { (d : Distinct) → slice_get head.now.dictionaries column ≡ Some (Some d)
        → d.kind ≡ kind }
    requires at_most { head.now.rows ≤ 1048576 }
    ensures reads { ReadsCodes head.now kind column
        (seen S.Shelf shelf.old) (seen S.Shelf shelf.new) result }
    ensures log { (file : List ℕ) → AreIn file head.now.sections
        → LogsFile file (S.log shelf.old) (S.log shelf.new) }
    ensures once { LogsColumn head.now column (S.log shelf.old) (S.log shelf.new) }
{
    match read_packed_column(alloc, shelf, head, column, list) {
        Ok(ids) => {
            let dictionary = head.dictionary(column);
            Ok(codes_of(alloc, kind, dictionary, ids, list.as_slice())?)
        }
        Err(fault) => Err(fault),
    }
}

// The column of rows with these ids, which are also in a list.
fn codes_of<'a>(
    alloc: Global,
    kind: FieldKind,
    dictionary: &'a Dictionary,
    ids: PackedIds,
    list: &[u32],
) -> Result<CodedColumn<'a>, NoMemory>
    requires kind { dictionary.now.kind ≡ kind }
    requires list { list.now ≡ ids }
    requires below { AreBelow (length dictionary.now.values) ids }
    requires at_most { length ids ≤ 1048576 }
    ensures { IfOk result (CodesRows kind dictionary.now ids) }
{
    if have_all(alloc, list, dictionary.count())? {
        let values = ColumnValues::Lent(dictionary);
        let ids = ColumnIds::packed(ids);
        return Ok(CodedColumn { values, ids });
    }
    let column = column_of(alloc, kind, dictionary, list)?;
    let (own, ids) = Dictionary::of_column(alloc, kind, &column)?;
    let ids = ColumnIds::alone(RowIds::of(alloc, ids, own.count())?);
    let values = ColumnValues::Own(own);
    Ok(CodedColumn { values, ids })
}

// Whether each id below a number is one of these. They are looked at as far as the last that is
// found first.
fn have_all(alloc: Global, ids: &[u32], count: u32) -> Result<bool, NoMemory>
    requires { AreBelow count ids.now }
    ensures { IfOk result (λ all. all ≡ true → HaveAll count ids.now) }
{
    let mut marks = vec![in alloc; false; count as usize]?;
    let mut next = 0;
    'ids: for row in 0..ids.len() {
        let place = ids[row] as usize;
        marks[place] = true;
        if place == next {
            next = first_unmarked(&marks, next);
            if next == count as usize {
                return Ok(true);
            }
        }
    }
    Ok(next == count as usize)
}

// The first place from one on that has no mark.
fn first_unmarked(marks: &[bool], from: usize) -> usize
    requires { from ≤ length marks.now }
    ensures at_most { result ≤ length marks.now }
    ensures marked { AreMarked marks.now from result }
{
    'marks: for at in from..marks.len() {
        if !marks[at] {
            return at;
        }
    }
    marks.len()
}

/// The columns of the values that these are.
pub(crate) fn decoded_columns(alloc: Global, coded: &CodedColumns) -> Result<Columns, NoMemory>
    requires { (table : Table) × AreCoded table coded.now }
    ensures rows { IfOk result (λ t. rows_of t ≡ rows_of (columns_in coded.now)) }
    ensures width { IfOk result (λ t. length t.columns ≡ length coded.now.columns.items) }
{
    let mut columns = Vec::with_capacity(alloc, coded.columns.len())?;
    let mut list = Vec::new(alloc);
    'columns: for at in 0..coded.columns.len() {
        let column = &coded.columns[at];
        let dictionary = column.values.dictionary();
        let _count = dictionary.count();
        let kind = dictionary.kind();
        column.ids.put_all(&mut list)?;
        columns.push(column_of(alloc, kind, dictionary, list.as_slice())?)?;
    }
    Ok(Columns::new(columns, coded.rows as usize))
}
