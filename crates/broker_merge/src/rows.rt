//! From the groups of a table to an answer.

ghost use Rattle.std.specs.Prelude.{◌≡◌, ◌<◌, ◌≤◌, IfOk, length, map};
ghost use Rattle.std.specs.FinMap as finite;
ghost use Rattle.std.specs.List.{All};
ghost use Rattle.group_table.specs.Kept.{IsTable, IsTableOf, group_at, groups_in};
ghost use Rattle.group_table.specs.Pooled.{IsTableIn, in_pool};
ghost use Rattle.group_table.specs.Shape.{shape_of};
ghost use Rattle.broker_merge.specs.Rank.{HasGroup, IsItem};
ghost use Rattle.broker_merge.specs.Ranked.{BeginInOrder};
ghost use Rattle.broker_merge.specs.Having.{asked_groups};
ghost use Rattle.broker_merge.specs.Answer as spec;
ghost use Rattle.broker_merge.specs.Answer.{NamesPlaces};

use crate::answer::{Answer, Cell};
use crate::having::asked;
use crate::ordered;
use crate::stretch::written_of;
use agg_laws::AggState;
use data_types::{Name, Seq};
use group_table::{GroupTable, GroupsIn, SlotPool};
use std::alloc::Global;
use table_schema::{BoundQuery, Item};
use values::NoMemory;

/// The answer of a query over the groups of its table: in order, those that are passed over left
/// out, and no more than the query asks for.
pub fn finish(
    alloc: Global,
    table: &GroupTable,
    pool: &SlotPool,
    query: &BoundQuery,
) -> Result<Answer, NoMemory>
    requires pooled { IsTableIn table.now pool.now }
    requires table { IsTableOf query.now (in_pool table.now pool.now) }
    requires places { NamesPlaces query.now }
    ensures answer { IfOk result (λ answer.
        answer ≡ spec.answer_of (shape_of query.now) (groups_in (in_pool table.now pool.now))) }
    ensures at_most { finite.len (groups_in (in_pool table.now pool.now)) ≤ table.now.most }
{
    let groups = GroupsIn::new(table, pool);
    finish_groups(alloc, &groups, query)
}

// The same of groups that are read.
fn finish_groups(
    alloc: Global,
    table: &GroupsIn<'_>,
    query: &BoundQuery,
) -> Result<Answer, NoMemory>
    requires table { IsTableOf query.now table.now }
    requires places { NamesPlaces query.now }
    ensures answer { IfOk result (λ answer.
        answer ≡ spec.answer_of (shape_of query.now) (groups_in table.now)) }
    ensures at_most { finite.len (groups_in table.now) ≤ table.now.most }
{
    let most = u128::from(query.offset) + u128::from(query.limit);
    let places = first_in_order(alloc, table, query, most)?;
    let written = written_of(&places, query.offset, query.limit);
    let rows = rows_of(alloc, table, written, query.items.as_slice())?;
    let labels = copy_labels(alloc, query.labels.as_slice())?;
    Ok(Answer { labels, rows })
}

// The places of the first so many groups that are asked for, in order. Fewer than two are in order
// as they are.
fn first_in_order(
    alloc: Global,
    table: &GroupsIn<'_>,
    query: &BoundQuery,
    most: u128,
) -> Result<Vec<u32>, NoMemory>
    requires table { IsTableOf query.now table.now }
    requires places { NamesPlaces query.now }
    ensures order { IfOk result (λ v. BeginInOrder table.now
        (asked_groups query.now.having (finite.entries (groups_in table.now)))
        query.now.order most v.items) }
    ensures table { IsTable table.now }
    ensures count { length table.now.groups ≡ finite.len (groups_in table.now) }
{
    let count = table.groups();
    let kept = asked(alloc, table, count, &query.having)?;
    if kept.len() < 2 {
        Ok(kept)
    } else {
        ordered(alloc, table, &kept, query.order.as_slice(), most)
    }
}

// The labels of the columns; their texts are shared.
fn copy_labels(alloc: Global, labels: &[Name]) -> Result<Seq<Name>, NoMemory>
    ensures { IfOk result (λ copy. copy ≡ labels.now) }
{
    let mut copy = Seq::with_capacity(alloc, labels.len())?;
    for label in labels {
        copy.push(label.copy()?)?;
    }
    Ok(copy)
}

// What is written of the groups at these places.
fn rows_of(
    alloc: Global,
    table: &GroupsIn<'_>,
    places: &[u32],
    items: &[Item],
) -> Result<Seq<Seq<Cell>>, NoMemory>
    requires table { IsTable table.now }
    requires places { All (λ at. at < length table.now.groups) places.now }
    requires items { All (IsItem table.now) items.now }
    ensures { IfOk result (λ rows. rows
        ≡ map (λ at. map (spec.item_cell (group_at table.now at)) items.now) places.now) }
{
    let mut rows = Seq::with_capacity(alloc, places.len())?;
    for at in places {
        rows.push(row_of(alloc, table, *at, items)?)?;
    }
    Ok(rows)
}

// What is written of a group.
fn row_of(
    alloc: Global,
    table: &GroupsIn<'_>,
    at: u32,
    items: &[Item],
) -> Result<Seq<Cell>, NoMemory>
    requires group { HasGroup table.now at }
    requires items { All (IsItem table.now) items.now }
    ensures { IfOk result (λ row. row
        ≡ map (spec.item_cell (group_at table.now at)) items.now) }
{
    let mut row = Seq::with_capacity(alloc, items.len())?;
    for item in items {
        row.push(cell_at(alloc, table, at, *item)?)?;
    }
    Ok(row)
}

// What is written of a group in one column.
fn cell_at(alloc: Global, table: &GroupsIn<'_>, at: u32, item: Item) -> Result<Cell, NoMemory>
    requires group { HasGroup table.now at }
    requires item { IsItem table.now item }
    ensures { IfOk result (λ cell. cell ≡ spec.item_cell (group_at table.now at) item) }
{
    match item {
        Item::Group(place) => {
            let value = table.key_at(at).at(place as usize).copy(alloc)?;
            Ok(Cell::Kept(value))
        }
        Item::Agg(place) => Ok(state_cell(table.state_at(at, place))),
    }
}

// What is written of an aggregate.
fn state_cell(state: &AggState) -> Cell
    ensures { result ≡ spec.state_cell state.now }
{
    match *state {
        AggState::Count(count) => Cell::Whole(i128::from(count)),
        AggState::Sum(sum) => Cell::Whole(sum),
        AggState::Least(least) => number_cell(least),
        AggState::Greatest(greatest) => number_cell(greatest),
        AggState::Average(average) => Cell::Fraction(average.sum, average.count),
    }
}

fn number_cell(number: Option<i64>) -> Cell
    ensures { result ≡ spec.number_cell number }
{
    match number {
        Some(number) => Cell::Whole(i128::from(number)),
        None => Cell::Null,
    }
}
