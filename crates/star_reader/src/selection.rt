//! Documents are selected: those that pass their remaining tests, with their ids in the group
//! columns and their states for the aggregates.

ghost use Rattle.std.specs.Prelude.{◌≡◌, ◌+◌, ◌^◌, ◌<◌, ◌≤◌, [], ◌++◌, ◌∷◌, true, length};
ghost use Rattle.std.specs.Prelude.{IfOk, MatchBool, OnOk};
ghost use Rattle.std.specs.List.{All};
ghost use Rattle.agg_laws.specs.Rows.{row_weight};
ghost use Rattle.state_columns.specs.Docs.{AreStored, HaveShape, doc_at};
ghost use Rattle.agg_laws.specs.Merged.{weights};
ghost use Rattle.star_walk.specs.Walking.{HasEach};
ghost use Rattle.star_reader.specs.Answers.{asked_of, left_of};
ghost use Rattle.star_reader.specs.Asked.{AreAsked, HasKey, kinds_for, states_of};
ghost use Rattle.star_reader.specs.Selected.{IsSelected, MayBeSelected, key_ids, selected_doc};
ghost use Rattle.star_reader.specs.Selected.{selected_docs};

use crate::asked::{Asked, GroupColumn};
use crate::row_count::weight_of;
use crate::testing::passes_from;
use agg_laws::{AggKind, AggState, Kinds, TreeShape};
use star_file::SpelledDocs;
use star_table::StarTable;
use star_walk::Task;
use std::alloc::{AllocError, Global};

/// The documents that are selected, and how many rows they stand for at least. The ids and states
/// of the last one are kept apart, for the next one to be put in their place.
#[derive(Drop)]
pub struct Selected {
    pub table: StarTable,
    weight: u32,
    ids: Vec<u32>,
    states: Vec<AggState>,
    ghost weighed: { weight ≡ weights row_weight table.docs },
}

impl Selected {
    /// No documents.
    pub fn new(alloc: Global, asked: &Asked<'_>, shape: &TreeShape) -> Result<Selected, AllocError>
        requires at_most { length shape.now.kinds ≤ 16 }
        requires asked { AreAsked shape.now asked.now }
        ensures dims { IfOk result (λ selected. selected.table.dims
            ≡ length asked.now.columns.now) }
        ensures kinds { IfOk result (λ selected.
            selected.table.kinds ≡ kinds_for asked.now.pairs.now shape.now.kinds) }
        ensures docs { IfOk result (λ selected. selected.table.docs ≡ []) }
    {
        let shape = TreeShape {
            dims: asked.columns.len() as u8,
            skipped: 0,
            leaf: 1,
            kinds: kinds_for(alloc, asked.pairs, shape.kinds.as_slice())?,
        };
        Ok(Selected {
            table: StarTable::new(alloc, &shape)?,
            weight: 0,
            ids: Vec::with_capacity(alloc, asked.columns.len())?,
            states: Vec::with_capacity(alloc, asked.pairs.len())?,
        })
    }

    /// Takes those documents of a table that pass the tests of their dimensions from a level on,
    /// and answers whether they may all be selected.
    pub(crate) fn take_passing(
        &mut self,
        task: &Task,
        table: &SpelledDocs<'_>,
        level: usize,
        asked: &Asked<'_>,
        shape: &TreeShape,
        rows: u32,
    ) -> Result<bool, AllocError>
        requires each { HasEach task.now.matched task.now.grouped }
        requires at_most { length task.now.matched ≤ 16 }
        requires dims { table.now.dims ≡ length task.now.matched }
        requires level { level ≤ length task.now.matched }
        requires small { length table.now.docs < 2 ^ 32 }
        requires kinds { table.now.kinds ≡ shape.now.kinds }
        requires shape_dims { shape.now.dims ≡ length task.now.matched }
        requires asked { AreAsked shape.now asked.now }
        requires selected { IsSelected shape.now asked.now rows self.old.table }
        ensures selected { IfOk result (λ done. MatchBool done
            (IsSelected shape.now asked.now rows self.new.table
            × (self.new.table.docs ≡ self.old.table.docs ++ selected_docs asked.now
            (left_of (asked_of task.now) (length task.now.matched) level table.now.docs)))
            (¬ MayBeSelected asked.now.columns.now rows (self.old.table.docs
            ++ selected_docs asked.now
            (left_of (asked_of task.now) (length task.now.matched) level table.now.docs)))) }
    {
        let count = table.len();
        self.table.reserve(count)?;
        for at in 0..count {
            if !passes_from(task, table, at, level) {
                continue;
            }
            if !self.take(table, at, asked, shape, rows)? {
                return Ok(false);
            }
        }
        Ok(true)
    }

    // Takes a document, for which there is room, and answers whether it may be selected.
    fn take(
        &mut self,
        table: &SpelledDocs<'_>,
        at: u32,
        asked: &Asked<'_>,
        shape: &TreeShape,
        rows: u32,
    ) -> Result<bool, AllocError>
        requires at { at < length table.now.docs }
        requires dims { table.now.dims ≡ shape.now.dims }
        requires kinds { table.now.kinds ≡ shape.now.kinds }
        requires asked { AreAsked shape.now asked.now }
        requires selected { IsSelected shape.now asked.now rows self.old.table }
        requires room { 1 ≤ self.old.table.spare }
        requires shape { HaveShape table.now.dims table.now.kinds table.now.docs }
        requires stored { AreStored table.now.docs }
        ensures selected { IfOk result (λ done. MatchBool done
            (IsSelected shape.now asked.now rows self.new.table
            × (self.new.table.docs ≡ self.old.table.docs
            ++ selected_doc asked.now (doc_at table.now.docs at) ∷ []))
            (¬ MayBeSelected asked.now.columns.now rows (self.old.table.docs
            ++ selected_doc asked.now (doc_at table.now.docs at) ∷ []))) }
        ensures room { IfOk result (λ done. done ≡ true
            → self.new.table.spare + 1 ≡ self.old.table.spare) }
    {
        if !put_ids(table, at, asked.columns, &mut self.ids)? {
            return Ok(false);
        }
        put_states(table, at, asked.pairs, &mut self.states)?;
        let weight = weight_of(self.states.as_slice());
        if weight > rows - self.weight {
            return Ok(false);
        }
        self.weight += weight;
        self.table
            .append_parts(self.ids.as_slice(), self.states.as_slice());
        Ok(true)
    }
}

// Puts the ids of a document in the group columns, and answers whether each is one of its column.
fn put_ids(
    table: &SpelledDocs<'_>,
    at: u32,
    columns: &[GroupColumn<'_>],
    ids: &mut Vec<u32>,
) -> Result<bool, AllocError>
    requires at { at < length table.now.docs }
    requires dims { All (λ column. column.dim < table.now.dims) columns.now }
    ensures { IfOk result (λ done. MatchBool done
        ((ids.new.items ≡ key_ids columns.now (doc_at table.now.docs at).0)
        × HasKey columns.now (doc_at table.now.docs at).0)
        (¬ HasKey columns.now (doc_at table.now.docs at).0)) }
{
    ids.clear();
    for column in columns {
        let id = table.dim(at, column.dim);
        if id >= column.values.count() {
            return Ok(false);
        }
        ids.push(id)?;
    }
    Ok(true)
}

// Puts the states of a document for the aggregates.
fn put_states(
    table: &SpelledDocs<'_>,
    at: u32,
    pairs: &[u8],
    states: &mut Vec<AggState>,
) -> Result<(), AllocError>
    requires at { at < length table.now.docs }
    requires pairs { All (λ pair. pair < length table.now.kinds) pairs.now }
    ensures { OnOk result (states.new.items ≡ states_of pairs.now (doc_at table.now.docs at).1) }
{
    states.clear();
    for pair in pairs {
        states.push(table.state(at, *pair))?;
    }
    Ok(())
}

// The kinds of the aggregates.
fn kinds_for(alloc: Global, pairs: &[u8], kinds: &[AggKind]) -> Result<Kinds, AllocError>
    requires { All (λ pair. pair < length kinds.now) pairs.now }
    ensures { IfOk result (λ all. all ≡ kinds_for pairs.now kinds.now) }
{
    let mut all = Kinds::new(alloc);
    for pair in pairs {
        all.push(kinds[*pair as usize])?;
    }
    Ok(all)
}
