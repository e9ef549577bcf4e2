//! Whether a row of a table of numbers satisfies a conjunct of a query.

ghost use Rattle.std.specs.Prelude.{◌≡◌, ◌≤◌, MatchOption, length};
ghost use Rattle.values.specs.Columns.{row_of};
ghost use Rattle.values.specs.Tests.{holds};
ghost use Rattle.values.specs.declared.value.Value.TheVariants as value;
ghost use Rattle.table_schema.specs.Conditions as spec;
ghost use Rattle.scan_engine.specs.Selection.{AreNumbersOf};

use crate::number_block::NumberBlock;
use table_schema::{Conjunct, Wide};
use values::{Test, Value, holds_value};

/// The numbers of a field, a row each, unless the rows end before it.
#[inline(always)]
pub(crate) fn numbers_of<'a>(table: NumberBlock<'a>, field: u16) -> Option<&'a [i64]>
    ensures { MatchOption result
        (length table.entry.columns.now.columns ≤ field)
        (λ numbers. AreNumbersOf table.entry.columns.now field numbers.now) }
{
    let field = usize::from(field);
    if field >= table.columns.width() {
        return None;
    }
    match table.columns.column(field).as_numbers() {
        Some(numbers) => Some(numbers),
        None => unreachable!(),
    }
}

/// The number of a field in a row; beyond the row's end it is 0.
#[inline(always)]
pub(crate) fn number_in(table: NumberBlock, at: usize, field: u16) -> i64
    ensures { spec.cell (row_of table.entry.columns.now.columns at) field ≡ value.Whole result }
{
    let Some(numbers) = numbers_of(table, field) else {
        return 0;
    };
    match numbers.get(at) {
        Some(number) => *number,
        None => 0,
    }
}

// Whether the value of a field in a row satisfies a test.
fn test_at(table: NumberBlock, at: usize, field: u16, test: &Test) -> bool
    ensures { result
        ≡ holds (spec.cell (row_of table.entry.columns.now.columns at) field) test.now }
{
    holds_value(test, &Value::Whole(number_in(table, at, field)))
}

fn wide_holds(table: NumberBlock, at: usize, wide: &Wide) -> bool
    ensures { result ≡ spec.wide_holds (row_of table.entry.columns.now.columns at) wide.now }
{
    match wide {
        Wide::Leaf(field, test) => test_at(table, at, *field, test),
        Wide::All(inner) => {
            for member in inner.as_slice() {
                if !wide_holds(table, at, member) {
                    return false;
                }
            }
            true
        }
        Wide::Any(inner) => {
            for member in inner.as_slice() {
                if wide_holds(table, at, member) {
                    return true;
                }
            }
            false
        }
    }
}

/// Whether a row of a table of numbers satisfies a conjunct.
pub(crate) fn conjunct_holds(table: NumberBlock, at: usize, conjunct: &Conjunct) -> bool
    ensures { result
        ≡ spec.conjunct_holds (row_of table.entry.columns.now.columns at) conjunct.now }
{
    match conjunct {
        Conjunct::One(field, test) => test_at(table, at, *field, test),
        Conjunct::Many(wide) => wide_holds(table, at, wide),
    }
}
