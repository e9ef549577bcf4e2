//! Segments with a column of which no value satisfies the conjuncts on it, which are known by its
//! small dictionary before a large one is loaded.
ghost use Rattle.std.specs.Prelude.{◌≡◌, true, IfOk, OnOk};
ghost use Rattle.outside.specs.Seen.{seen};
ghost use Rattle.table_schema.specs.ValidQuery.{conjunct_known};
ghost use Rattle.segment_head.specs.Heads.{IsHeadOf, IsPartOf, OfWhole};
ghost use Rattle.segment_opening.specs.Calls.{IsQueryOnHead, LoadsMore};
ghost use Rattle.segment_opening.specs.Emptied.{IsEmptied, MatchesNone};

use crate::emptied::is_large;
use crate::loading::load_one;
use outside::Shelf;
use segment_head::{EngineFault, Head};
use std::alloc::Global;
use table_schema::{BoundQuery, Conjunct, Table};

/// Loads the small dictionaries of columns that a conjunct names alone, up to one of which no value
/// satisfies it. Answers whether there is such a one.
pub(crate) fn is_emptied_by_small<S: Shelf>(
    alloc: Global,
    shelf: &mut S,
    table: &Table,
    query: &BoundQuery,
    head: &mut Head,
) -> Result<bool, EngineFault>
    requires { IsQueryOnHead query.now table.now head.old }
    ensures emptied { IfOk result (λ emptied. emptied ≡ true →
        IsEmptied query.now table.now (S.held shelf.old) head.old) }
    ensures loads { LoadsMore table.now result head.old head.new
        (seen S.Shelf shelf.old) (seen S.Shelf shelf.new) }
{
    let conjuncts = query.conjuncts.as_slice();
    'conjuncts: for at in 0..conjuncts.len() {
        match small_matches_none(alloc, shelf, table, &conjuncts[at], head) {
            Ok(true) => return Ok(true),
            Ok(false) => {}
            Err(fault) => return Err(fault),
        }
    }
    Ok(false)
}

// Whether a conjunct matches no value of a small dictionary, which is loaded for that.
fn small_matches_none<S: Shelf>(
    alloc: Global,
    shelf: &mut S,
    table: &Table,
    conjunct: &Conjunct,
    head: &mut Head,
) -> Result<bool, EngineFault>
    requires of_table { IsHeadOf table.now head.old }
    requires known { conjunct_known table.now.schema.fields conjunct.now ≡ true }
    ensures none { IfOk result (λ none. none ≡ true →
        OfWhole table.now (S.held shelf.old) head.old (MatchesNone conjunct.now)) }
    ensures part { OnOk result (OfWhole table.now (S.held shelf.old) head.old
        (λ whole. IsPartOf whole head.new)) }
    ensures loads { LoadsMore table.now result head.old head.new
        (seen S.Shelf shelf.old) (seen S.Shelf shelf.new) }
{
    let Conjunct::One(column, test) = conjunct else {
        return Ok(false);
    };
    if is_large(head, *column) {
        return Ok(false);
    }
    match load_one(alloc, shelf, table, *column, head) {
        Ok(()) => {}
        Err(fault) => return Err(fault),
    }
    match head.dictionary(*column).ids_matching(alloc, test) {
        Ok(ids) => Ok(ids.is_empty()),
        Err(_) => Err(EngineFault::NoMemory),
    }
}
