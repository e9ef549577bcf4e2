//! The bound query of the parts of a query.

ghost use Rattle.std.specs.Prelude.{◌≡◌, ◌≤◌, length, map, true, None, IfOk};
ghost use Rattle.query_bind.specs.Written.{where_written};
ghost use Rattle.query_bind.specs.Conjuncts.{KeepRows, where_conjuncts};
ghost use Rattle.query_bind.specs.Names.{group_test_finding, where_finding};
ghost use Rattle.query_bind.specs.GroupTests.{having_finding};
ghost use Rattle.query_bind.specs.Limits as limits;
ghost use Rattle.query_bind.specs.Bound as spec;

use crate::conjuncts::conjuncts;
use crate::distinct::Lists;
use crate::group_tests::Tested;
use crate::items::{Listed, items_of, keys_of};
use crate::labels::labels;
use crate::terms::Terms;
use data_types::{Name, Seq};
use query_tokens::{LiteralAt, Query};
use std::alloc::Global;
use table_schema::{BoundQuery, Fields, Having, Item, OrderKey};
use values::{NoMemory, Value};

/// How many groups are answered where the query does not say.
const USUAL_LIMIT: u64 = 10;

// What the answer shows, and in which order.
#[derive(Drop)]
struct Shown {
    items: Seq<Item>,
    labels: Seq<Name>,
    order: Seq<OrderKey>,
}

/// The bound query of these parts, over fields that its condition names.
pub(crate) fn assemble(
    alloc: Global,
    query: &Query,
    fields: Fields,
    terms: &Terms,
    lists: Lists,
) -> Result<BoundQuery, NoMemory>
    requires checked { where_finding fields.all.now query.now.condition ≡ None }
    requires asked { having_finding
        (group_test_finding fields.all.now) query.now.having ≡ None }
    requires at_most { (length lists.groups ≤ 8) × (length lists.aggs ≤ 16) }
    requires limit { limits.is_count query.now.limit ≡ true }
    requires offset { limits.is_count query.now.offset ≡ true }
    ensures bound { IfOk result (λ bound. bound ≡ spec.assembled fields.entry.all.now query.now
        terms.now lists (where_conjuncts (where_written fields.entry.all.now
        query.now.condition))) }
    ensures rows { IfOk result (λ bound.
        KeepRows bound.conjuncts (where_written fields.entry.all.now query.now.condition)) }
{
    let conjuncts = conjuncts(alloc, fields, &query.condition)?;
    let shown = displayed(alloc, query, terms, &lists)?;
    let having = asked(alloc, query, fields, &lists)?;
    Ok(BoundQuery {
        use_tree: query.use_tree,
        conjuncts,
        groups: lists.groups,
        aggs: lists.aggs,
        items: shown.items,
        labels: shown.labels,
        order: shown.order,
        offset: count_or(0, &query.offset),
        limit: count_or(USUAL_LIMIT, &query.limit),
        having,
    })
}

/// The number after LIMIT or OFFSET, or the usual one.
fn count_or(usual: u64, literal: &Option<LiteralAt>) -> u64
    requires { limits.is_count literal.now ≡ true }
    ensures { result ≡ limits.count_or usual literal.now }
{
    let Some(literal) = literal else {
        return usual;
    };
    match &literal.value {
        Value::Whole(number) => *number as u64,
        Value::Text(_) => unreachable!(),
    }
}

fn asked<'a>(
    alloc: Global,
    query: &Query,
    fields: Fields<'a>,
    lists: &'a Lists,
) -> Result<Option<Having>, NoMemory>
    requires at_most { (length lists.now.groups ≤ 8) × (length lists.now.aggs ≤ 16) }
    requires asked { having_finding
        (group_test_finding fields.all.now) query.now.having ≡ None }
    ensures { IfOk result (λ having. having ≡ spec.asked_of fields.entry.all.now
        lists.now.groups lists.now.aggs query.now.having) }
{
    let groups = lists.groups.as_slice();
    let aggs = lists.aggs.as_slice();
    let lists = Listed { groups, aggs };
    let tested = Tested {
        alloc,
        fields,
        lists,
    };
    tested.asked(&query.having)
}

fn displayed(alloc: Global, query: &Query, terms: &Terms, lists: &Lists) -> Result<Shown, NoMemory>
    requires at_most { (length lists.now.groups ≤ 8) × (length lists.now.aggs ≤ 16) }
    ensures items { IfOk result
        (λ s. s.items ≡ spec.items_of lists.now.groups lists.now.aggs terms.now.items) }
    ensures labels { IfOk result (λ s. s.labels ≡ map spec.label_of query.now.items) }
    ensures order { IfOk result
        (λ s. s.order ≡ spec.keys_of lists.now.groups lists.now.aggs terms.now.keys) }
{
    let groups = lists.groups.as_slice();
    let aggs = lists.aggs.as_slice();
    let listed = Listed { groups, aggs };
    let items = items_of(alloc, listed, terms.items.as_slice())?;
    let order = keys_of(alloc, listed, terms.keys.as_slice())?;
    let labels = labels(alloc, query.items.as_slice())?;
    Ok(Shown {
        items,
        labels,
        order,
    })
}
