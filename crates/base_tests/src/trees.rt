//! Tables of documents, and the laws of trees worked by hand.

ghost use Rattle.std.specs.Prelude.{◌≡◌, ◌-◌, ◌≤◌, ◌<◌, ◌∷◌, ◌++◌, [], OnOk, IfOk, pos, slice_index};
ghost use Rattle.agg_laws.specs.declared.aggregate_kind.AggKind.TheVariants as kind;
ghost use Rattle.agg_laws.specs.declared.states.AggState.TheVariants as state;
ghost use Rattle.star_tree.specs.Worked.{doc};

use crate::aggregates::sums_and_counts;
use crate::expect::Expectations;
use agg_laws::{AggState, TreeShape};
use star_table::StarTable;
use star_tree::{
    aggregated_law, answer_law, children_law, covers_law, flat_law, node_rules_law, picks_law,
    reads_law, worked_law,
};
use state_columns::{Ids, STAR, StarRow, StateRow};
use std::alloc::{AllocError, Global};

fn ids_of(alloc: Global, ids: [u32; 3]) -> Result<Ids, AllocError>
    ensures { IfOk result (λ dims. dims
        ≡ slice_index ids 0 ∷ slice_index ids 1 ∷ slice_index ids 2 ∷ []) }
{
    let mut dims = Ids::new(alloc);
    dims.push(ids[0])?;
    dims.push(ids[1])?;
    dims.push(ids[2])?;
    Ok(dims)
}

fn states_of(alloc: Global, impressions: u16) -> Result<StateRow, AllocError>
    ensures { IfOk result (λ states. states
        ≡ state.Sum (pos impressions) ∷ state.Count 1 ∷ []) }
{
    let mut states = StateRow::new(alloc);
    states.push(AggState::Sum(impressions as i128))?;
    states.push(AggState::Count(1))?;
    Ok(states)
}

// A page view: country, browser and locale, and its impressions.
fn view(alloc: Global, ids: [u32; 3], impressions: u16) -> Result<StarRow, AllocError>
    ensures dims { IfOk result (λ row. row.dims
        ≡ slice_index ids 0 ∷ slice_index ids 1 ∷ slice_index ids 2 ∷ []) }
    ensures states { IfOk result (λ row. row.states
        ≡ state.Sum (pos impressions) ∷ state.Count 1 ∷ []) }
{
    Ok(StarRow {
        dims: ids_of(alloc, ids)?,
        states: states_of(alloc, impressions)?,
    })
}

// Adds a page view.
fn add_view(
    alloc: Global,
    table: &mut StarTable,
    ids: [u32; 3],
    impressions: u16,
) -> Result<(), AllocError>
    requires dims { table.old.dims ≡ 3 }
    requires kinds { table.old.kinds ≡ kind.Sum ∷ kind.Count ∷ [] }
    requires spare { 1 ≤ table.old.spare }
    ensures { OnOk result (table.new ≡ record table.old {
      docs = table.old.docs
          ++ doc (slice_index ids 0) (slice_index ids 1) (slice_index ids 2) impressions 1 ∷ [];
      spare = table.old.spare - 1;
    }) }
{
    let row = view(alloc, ids, impressions)?;
    table.append(&row);
    drop(row);
    Ok(())
}

// A table with room for documents, and none yet.
fn room(alloc: Global) -> Result<StarTable, AllocError>
    ensures { IfOk result (λ table. table ≡ record {
      dims = 3;
      kinds = kind.Sum ∷ kind.Count ∷ [];
      docs = [];
      spare = 8;
    }) }
{
    let shape = TreeShape {
        dims: 3,
        skipped: 0,
        leaf: 1,
        kinds: sums_and_counts(alloc)?,
    };
    let mut table = StarTable::new(alloc, &shape)?;
    table.reserve(8)?;
    Ok(table)
}

// Adds the page views of the USA.
fn add_views(alloc: Global, table: &mut StarTable) -> Result<(), AllocError>
    requires { table.old ≡ record {
      dims = 3;
      kinds = kind.Sum ∷ kind.Count ∷ [];
      docs = [];
      spare = 8;
    } }
    ensures { OnOk result (table.new ≡ record {
      dims = 3;
      kinds = kind.Sum ∷ kind.Count ∷ [];
      docs = doc 2 0 0 600 1 ∷ doc 2 1 0 400 1 ∷ doc 2 1 1 200 1 ∷ [];
      spare = 5;
    }) }
{
    add_view(alloc, table, [2, 0, 0], 600)?;
    add_view(alloc, table, [2, 1, 0], 400)?;
    add_view(alloc, table, [2, 1, 1], 200)
}

// The page views of the USA, and room for more.
fn views_of_the_usa(alloc: Global) -> Result<StarTable, AllocError>
    ensures { IfOk result (λ table. table ≡ record {
      dims = 3;
      kinds = kind.Sum ∷ kind.Count ∷ [];
      docs = doc 2 0 0 600 1 ∷ doc 2 1 0 400 1 ∷ doc 2 1 1 200 1 ∷ [];
      spare = 5;
    }) }
{
    let mut table = room(alloc)?;
    add_views(alloc, &mut table)?;
    Ok(table)
}

// A document has these ids, this sum and this count.
fn is_doc(table: &StarTable, at: u32, ids: [u32; 3], sum: i128, count: u64) -> bool
    requires dims { table.now.dims ≡ 3 }
    requires kinds { table.now.kinds ≡ kind.Sum ∷ kind.Count ∷ [] }
{
    table.len() > at as usize
        && table.dim(at, 0) == ids[0]
        && table.dim(at, 1) == ids[1]
        && table.dim(at, 2) == ids[2]
        && table.state(at, 0) == AggState::Sum(sum)
        && table.state(at, 1) == AggState::Count(count)
}

// What is expected of the documents that were starred and merged.
fn expect_docs(table: &StarTable, all: &Expectations)
    requires dims { table.now.dims ≡ 3 }
    requires kinds { table.now.kinds ≡ kind.Sum ∷ kind.Count ∷ [] }
{
    all.expect(table.len() == 7, "seven documents");
    all.expect(
        is_doc(table, 3, [2, STAR, 0], 1000, 2),
        "English in any browser",
    );
    all.expect(
        is_doc(table, 4, [2, STAR, 1], 200, 1),
        "Spanish in any browser",
    );
    all.expect(is_doc(table, 5, [2, STAR, STAR], 1200, 3), "all rows");
    all.expect(
        is_doc(table, 6, [2, 1, STAR], 600, 2),
        "Firefox in any language",
    );
}

// What is expected of the page views of the USA, starred by browser and merged.
fn expect_views(alloc: Global, all: &Expectations) -> Result<(), AllocError> {
    let mut table = views_of_the_usa(alloc)?;
    // browsers are starred: two rows share a locale
    let starred = table.append_starred(0, 3, 1)?;
    all.expect(starred == 2, "two locales");
    table.append_total(0, 3, 1);
    table.append_total(1, 3, 2);
    expect_docs(&table, all);
    drop(table);
    Ok(())
}

/// Documents are starred, merged and aggregated in their table.
pub fn tables_of_documents(alloc: Global, all: &Expectations) {
    let ran = expect_views(alloc, all);
    all.expect(ran.is_ok(), "memory for the documents");
    all.end("tables of documents");
}

/// The laws, whose contracts hold the trees that were worked by hand.
pub fn laws_of_trees(all: &Expectations) {
    worked_law();
    flat_law();
    node_rules_law();
    covers_law();
    children_law();
    picks_law();
    reads_law();
    aggregated_law();
    answer_law();
    all.expect(true, "laws");
    all.end("laws of trees");
}
