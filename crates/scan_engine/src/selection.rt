//! Which rows of a table satisfy conjuncts: each condition is tested over whole columns.
ghost use Rattle.std.specs.Prelude.{◌≡◌, ◌&&◌, IfOk, get_or, length, pos};
ghost use Rattle.values.specs.Columns.{row_of};
ghost use Rattle.values.specs.Order.{value_order};
ghost use Rattle.values.specs.Tests.{op_holds};
ghost use Rattle.values.specs.declared.value.Value.TheVariants as value;
ghost use Rattle.table_schema.specs.Conditions as spec;
ghost use Rattle.scan_engine.specs.Selection.{Keeps, Marks};

use crate::holds::{conjunct_holds, numbers_of};
use crate::number_block::NumberBlock;
use std::alloc::{AllocError, Global};
use table_schema::Conjunct;
use values::{CompareOp, Test, Value, op_holds};

/// A mark for each row of a table of numbers, whether it satisfies all of these.
pub(crate) fn mark_rows(
    alloc: Global,
    table: NumberBlock,
    conjuncts: &[Conjunct],
) -> Result<Vec<bool>, AllocError>
    ensures { IfOk result (λ marks.
        Marks (λ row. spec.all_hold row conjuncts.now) table.entry.columns.now marks.items) }
{
    let mut marks = vec![in alloc; true; table.columns.len()]?;
    keep_all(&mut marks, table, conjuncts);
    Ok(marks)
}

// Leaves the marks of the rows that satisfy all of these.
fn keep_all(marks: &mut [bool], table: NumberBlock, conjuncts: &[Conjunct])
    requires { length marks.old ≡ table.columns.now.count }
    ensures { Keeps (λ at. spec.all_hold (row_of table.entry.columns.now.columns at) conjuncts.now)
        marks.old marks.new }
{
    for conjunct in conjuncts {
        keep_conjunct(marks, table, conjunct);
    }
}

fn keep_conjunct(marks: &mut [bool], table: NumberBlock, conjunct: &Conjunct)
    requires { length marks.old ≡ table.columns.now.count }
    ensures { Keeps (λ at. spec.conjunct_holds
        (row_of table.entry.columns.now.columns at) conjunct.now)
        marks.old marks.new }
{
    if let Conjunct::One(field, Test::Compare(op, Value::Whole(bound))) = conjunct {
        if let Some(numbers) = numbers_of(table, *field) {
            keep_compared(marks, numbers, *op, bound);
            return;
        }
    }
    keep_rows(marks, table, conjunct);
}

// Whether a mark stays.
#[inline(always)]
fn is_kept(mark: bool, holds: bool) -> bool
    ensures { result ≡ (mark && holds) }
{
    mark && holds
}

// Leaves the marks of the numbers that stand so to a bound.
fn keep_compared(marks: &mut [bool], numbers: &[i64], op: CompareOp, bound: &i64)
    requires { length marks.old ≡ length numbers.now }
    ensures { Keeps (λ at. op_holds op (value_order (value.Whole (get_or numbers.now at (pos 0)))
        (value.Whole bound.now))) marks.old marks.new }
{
    for at in 0..marks.len() {
        marks[at] = is_kept(marks[at], op_holds(op, numbers[at].cmp(bound)));
    }
}

// Leaves the marks of the rows that satisfy a conjunct, row by row.
fn keep_rows(marks: &mut [bool], table: NumberBlock, conjunct: &Conjunct)
    ensures { Keeps (λ at. spec.conjunct_holds
        (row_of table.entry.columns.now.columns at) conjunct.now)
        marks.old marks.new }
{
    for at in 0..marks.len() {
        marks[at] = is_kept(marks[at], conjunct_holds(table, at, conjunct));
    }
}
