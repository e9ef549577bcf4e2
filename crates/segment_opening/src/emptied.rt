//! Segments with a column of which no value satisfies the conjuncts on it, which are known by the
//! dictionaries where they lie.
ghost use Rattle.std.specs.Prelude.{◌≡◌, true, IfOk};
ghost use Rattle.outside.specs.Seen.{seen};
ghost use Rattle.table_schema.specs.ValidQuery.{conjunct_known};
ghost use Rattle.segment_head.specs.Heads.{IsHeadOf, OfWhole};
ghost use Rattle.segment_opening.specs.Calls.{IsQueryOnHead, LooksUp};
ghost use Rattle.segment_opening.specs.Emptied.{IsEmptied, MatchesNone};

use crate::found::find;
use outside::Shelf;
use segment_file::Part;
use segment_head::{EngineFault, Head};
use std::alloc::Global;
use table_schema::{BoundQuery, Conjunct, Table};
use values::{CompareOp, Test};

/// A dictionary of at most so many bytes is read whole at once.
const SMALL: u64 = 65536;

/// Of a test with more bounds than this all values are looked at.
pub(crate) const FEW_BOUNDS: usize = 16;

/// Whether some conjunct is known to match no value of its column. Bounds are cut where large
/// dictionaries lie, and none is loaded. Where a dictionary is bad, that is not known.
pub(crate) fn is_emptied<S: Shelf>(
    alloc: Global,
    shelf: &mut S,
    table: &Table,
    query: &BoundQuery,
    head: &Head,
) -> Result<bool, EngineFault>
    requires { IsQueryOnHead query.now table.now head.now }
    ensures emptied { IfOk result (λ emptied. emptied ≡ true →
        IsEmptied query.now table.now (S.held shelf.old) head.now) }
    ensures looks { LooksUp table.now result head.now
        (seen S.Shelf shelf.old) (seen S.Shelf shelf.new) }
{
    let conjuncts = query.conjuncts.as_slice();
    'conjuncts: for at in 0..conjuncts.len() {
        match matches_none(alloc, shelf, table, head, &conjuncts[at]) {
            Ok(true) => return Ok(true),
            Ok(false) => {}
            Err(fault) => return Err(fault),
        }
    }
    Ok(false)
}

// Whether a conjunct is known to match no value of its column.
fn matches_none<S: Shelf>(
    alloc: Global,
    shelf: &mut S,
    table: &Table,
    head: &Head,
    conjunct: &Conjunct,
) -> Result<bool, EngineFault>
    requires of_table { IsHeadOf table.now head.now }
    requires known { conjunct_known table.now.schema.fields conjunct.now ≡ true }
    ensures none { IfOk result (λ none. none ≡ true →
        OfWhole table.now (S.held shelf.old) head.now (MatchesNone conjunct.now)) }
    ensures looks { LooksUp table.now result head.now
        (seen S.Shelf shelf.old) (seen S.Shelf shelf.new) }
{
    let Conjunct::One(column, test) = conjunct else {
        return Ok(false);
    };
    if !is_large(head, *column) || !names_few(test) {
        return Ok(false);
    }
    match find(alloc, shelf, table, head, *column, test) {
        Ok(Some(matched)) => Ok(matched.ids.is_empty()),
        Ok(None) => Ok(false),
        Err(fault) => Err(fault),
    }
}

/// Whether the dictionary of a column is worth being looked up.
pub(crate) fn is_large(head: &Head, column: u16) -> bool {
    match head.place(Part::Dictionary(column)) {
        Some(place) => place.length > SMALL,
        None => false,
    }
}

// Whether a test names a few values, or a range of them, that may be between others.
fn names_few(test: &Test) -> bool {
    match test {
        Test::Compare(CompareOp::Equal, _) => true,
        Test::OneOf(members, negated) => !*negated && members.len() <= FEW_BOUNDS,
        Test::Between(_, _, negated) => !*negated,
        _ => false,
    }
}
