//! The columns of an answer and its order, by places among group columns and aggregates.

ghost use Rattle.std.specs.Prelude.{◌≡◌, ◌≤◌, ◌==◌, length, IfOk};
ghost use Rattle.std.specs.List.{position_or_len};
ghost use Rattle.query_bind.specs.Terms as terms_spec;
ghost use Rattle.query_bind.specs.Bound as spec;
ghost use Rattle.table_schema.specs.Aggs.{same_agg};

use crate::terms::{KeyAt, Meaning, TermAt};
use data_types::Seq;
use std::alloc::Global;
use table_schema::{Agg, Item, OrderKey};
use values::NoMemory;

/// The group columns and the aggregates of a query, of which its answer is made.
#[derive(Clone, Copy)]
pub(crate) struct Listed<'a> {
    pub(crate) groups: &'a [u16],
    pub(crate) aggs: &'a [Agg],
    ghost few_groups: { length groups.now ≤ 8 },
    ghost few_aggs: { length aggs.now ≤ 16 },
}

/// The place of a column among the group columns; their number where it is none of them.
fn column_place(groups: &[u16], column: u16) -> u16
    requires { length groups.now ≤ 8 }
    ensures { result ≡ position_or_len (λ g. g == column) groups.now }
{
    for (place, group) in groups.iter().enumerate() {
        if *group == column {
            return place as u16;
        }
    }
    groups.len() as u16
}

/// The place of an aggregate among these; their number where it is none of them.
fn agg_place(aggs: &[Agg], agg: Agg) -> u16
    requires { length aggs.now ≤ 16 }
    ensures { result ≡ position_or_len (same_agg agg) aggs.now }
{
    for (place, other) in aggs.iter().enumerate() {
        if agg == *other {
            return place as u16;
        }
    }
    aggs.len() as u16
}

pub(crate) fn item_of(lists: Listed, meaning: Meaning) -> Item
    ensures { result ≡ spec.item_of lists.entry.groups.now lists.entry.aggs.now meaning }
{
    match meaning {
        Meaning::Column(column) => Item::Group(column_place(lists.groups, column)),
        Meaning::Agg(agg) => Item::Agg(agg_place(lists.aggs, agg)),
    }
}

/// The items.
pub(crate) fn items_of(
    alloc: Global,
    lists: Listed,
    terms: &[TermAt],
) -> Result<Seq<Item>, NoMemory>
    ensures { IfOk result (λ items. items
        ≡ spec.items_of lists.entry.groups.now lists.entry.aggs.now terms.now) }
{
    let mut items = Seq::with_capacity(alloc, terms.len())?;
    for term in terms {
        items.push(item_of(lists, term.meaning))?;
    }
    Ok(items)
}

/// The order of the answer.
pub(crate) fn keys_of(
    alloc: Global,
    lists: Listed,
    keys: &[KeyAt],
) -> Result<Seq<OrderKey>, NoMemory>
    ensures { IfOk result (λ order. order
        ≡ spec.keys_of lists.entry.groups.now lists.entry.aggs.now keys.now) }
{
    let mut order = Seq::with_capacity(alloc, keys.len())?;
    for key in keys {
        order.push(OrderKey {
            item: item_of(lists, key.term.meaning),
            descending: key.descending,
        })?;
    }
    Ok(order)
}
