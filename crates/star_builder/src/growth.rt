//! Documents that are added to a table as a tree is built.

ghost use Rattle.std.specs.Prelude.{◌≡◌, ◌+◌, ◌-◌, ◌*◌, ◌≤◌, ◌↔◌, ◌++◌, length, OnOk, IfOk};
ghost use Rattle.std.specs.Prelude.{IsTrue};
ghost use Rattle.agg_laws.specs.Rows.{merged_rows};
ghost use Rattle.agg_laws.specs.Merged.{rekey};
ghost use Rattle.agg_laws.specs.Tree.{merged_docs, set_star};
ghost use Rattle.state_columns.specs.Documents.{aggregated, AreAlike};
ghost use Rattle.state_columns.specs.Region.{range};
ghost use Rattle.star_table.specs.Shapes.{IsShape};
ghost use Rattle.star_table.specs.Tables.{AreMergeable, KeepsShape};
ghost use Rattle.star_file.specs.Rules.{widths, most_bytes};

use crate::NoMemory;
use agg_laws::TreeShape;
use star_file::few_bytes;
use star_table::StarTable;

/// Adds the documents of a range with a dimension starred, merged, and answers how many they are.
pub(crate) fn add_starred(
    docs: &mut StarTable,
    start: u32,
    end: u32,
    level: u8,
) -> Result<u32, NoMemory>
    requires { AreMergeable start end docs.old.docs }
    ensures docs { OnOk result (docs.new.docs ≡ docs.old.docs
        ++ merged_docs merged_rows (rekey (set_star level) (range start end docs.old.docs))) }
    ensures count { IfOk result (λ n. length docs.new.docs ≡ length docs.old.docs + n) }
    ensures at_most { IfOk result (λ n. n ≤ end - start) }
    ensures shape { KeepsShape docs.old docs.new }
{
    docs.reserve(end - start)?;
    docs.append_starred(start, end, level)
}

/// Adds the aggregated document of a range, whose documents have the same ids below the level.
pub(crate) fn add_total(
    docs: &mut StarTable,
    start: u32,
    end: u32,
    level: u8,
) -> Result<(), NoMemory>
    requires range { AreMergeable start end docs.old.docs }
    requires level { level ≤ docs.old.dims }
    requires alike { AreAlike level (range start end docs.old.docs) }
    ensures docs { OnOk result (docs.new.docs ≡ docs.old.docs
        ++ aggregated merged_rows level (range start end docs.old.docs)) }
    ensures shape { KeepsShape docs.old docs.new }
{
    docs.reserve(1)?;
    docs.append_total(start, end, level);
    Ok(())
}

/// How many documents there are, where they take no more bytes than a tree may.
pub(crate) fn count_of(shape: &TreeShape, docs: &StarTable) -> u32
    requires bounded { IsShape shape.now }
    requires small { (4 * shape.now.dims + widths shape.now.kinds) * length docs.now.docs
        ≤ most_bytes }
    ensures value { result ≡ length docs.now.docs }
    ensures bound { result ≤ most_bytes }
{
    let count = docs.len();
    count as u32
}

/// Whether documents and so many nodes take no more bytes than a tree may.
pub(crate) fn they_fit(shape: &TreeShape, docs: &StarTable, nodes: usize) -> bool
    requires { IsShape shape.now }
    ensures { IsTrue result ↔ ((4 * shape.now.dims + widths shape.now.kinds) * length docs.now.docs
        + 28 * nodes ≤ most_bytes) }
{
    match u32::try_from(docs.len()) {
        Ok(count) => few_bytes(shape, count, nodes),
        Err(_) => false,
    }
}
