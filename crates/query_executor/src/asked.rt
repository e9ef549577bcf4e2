//! A query that tests columns, asked by the ids of the values that satisfy its tests.
ghost use Rattle.std.specs.Prelude.{◌≡◌, ◌≤◌, ◌<◌, ℕ, IfOk, IfSome, OnOk, Some, length};
ghost use Rattle.value_ids.specs.Dictionary.{most_values};
ghost use Rattle.segment_opening.specs.Found.{count_of, with_counts};
ghost use Rattle.query_executor.specs.ByIds.{AsksBy, kept_if};

use outside::Seq;
use segment_head::Head;
use std::alloc::Global;
use table_schema::{BoundQuery, Conjunct};
use values::NoMemory;

/// The query that asks for the groups and aggregates of another, of the rows of these conjuncts.
pub(crate) fn asked_by_ids(
    alloc: Global,
    query: &BoundQuery,
    conjuncts: Seq<Conjunct>,
) -> Result<BoundQuery, NoMemory>
    ensures { IfOk result (λ asked. AsksBy query.now asked conjuncts) }
{
    Ok(BoundQuery {
        use_tree: false,
        conjuncts,
        groups: query.groups.copy(alloc)?,
        aggs: query.aggs.copy(alloc)?,
        items: Seq::new(alloc),
        labels: Seq::new(alloc),
        order: Seq::new(alloc),
        offset: 0,
        limit: 0,
        having: None,
    })
}

/// Keeps so many ids in place of the values of each column that has a count.
pub(crate) fn keep_counted(
    alloc: Global,
    counts: &[Option<u32>],
    head: &mut Head,
) -> Result<(), NoMemory>
    requires each { length counts.now ≡ length head.old.dictionaries }
    requires at_most { length counts.now ≤ 65535 }
    requires few { (column count : ℕ) → count_of counts.now column ≡ Some count →
        count ≤ most_values }
    ensures { OnOk result (head.new ≡ with_counts counts.now head.old) }
{
    'columns: for column in 0..counts.len() {
        keep_at(alloc, counts, column as u16, head)?;
    }
    Ok(())
}

// Keeps so many ids in place of the values of a column, if it has a count.
fn keep_at(
    alloc: Global,
    counts: &[Option<u32>],
    column: u16,
    head: &mut Head,
) -> Result<(), NoMemory>
    requires column { column < length counts.now }
    requires each { length counts.now ≡ length head.old.dictionaries }
    requires few { IfSome (count_of counts.now column) (λ n. n ≤ most_values) }
    ensures { OnOk result (head.new ≡ kept_if column (count_of counts.now column) head.old) }
{
    match counts[column as usize] {
        Some(count) => head.keep_ids(alloc, column, count),
        None => Ok(()),
    }
}
