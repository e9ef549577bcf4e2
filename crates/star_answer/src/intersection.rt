//! The ids of the values of a column that satisfy all conjuncts on it.

ghost use Rattle.std.specs.Prelude.{◌≡◌, ℕ, ◌&&◌, true, IfOk};
ghost use Rattle.value_ids.specs.Ids.{AreThose, has_id};
ghost use Rattle.segment_head.specs.Heads.{IsLoaded};
ghost use Rattle.segment_plan.specs.Matched.{AreLoaded, is_on, values_in};
ghost use Rattle.star_walk.specs.Walking.{is_among};
ghost use Rattle.star_answer.specs.Tasks.{AreMatched, Intersects};

use crate::NoMemory;
use segment_head::Head;
use std::alloc::Global;
use table_schema::Conjunct;
use value_ids::{IdSet, intersection_of};

/// The ids of the values of a column that satisfy each conjunct that names it alone, or `None`
/// where no conjunct does.
pub(crate) fn matched_ids(
    alloc: Global,
    conjuncts: &[Conjunct],
    column: u16,
    head: &Head,
) -> Result<Option<IdSet>, NoMemory>
    requires loaded { AreLoaded conjuncts.now head.now }
    ensures { IfOk result (AreMatched conjuncts.now column (values_in head.now column)) }
{
    let mut met = None;
    for conjunct in conjuncts {
        met = intersect_conjunct(alloc, conjunct, column, head, met)?;
    }
    Ok(met)
}

// Of some ids, or of all where there are none, those whose values satisfy one more conjunct, if it
// names the column alone.
fn intersect_conjunct(
    alloc: Global,
    conjunct: &Conjunct,
    column: u16,
    head: &Head,
    met: Option<IdSet>,
) -> Result<Option<IdSet>, NoMemory>
    requires loaded { is_on column conjunct.now ≡ true → IsLoaded head.now column }
    ensures { IfOk result (Intersects column (values_in head.now column) conjunct.now met) }
{
    match conjunct {
        Conjunct::One(named, condition) => {
            if *named != column {
                return Ok(met);
            }
            let ids = head.dictionary(column).ids_matching(alloc, condition)?;
            Ok(Some(intersect(alloc, met, ids)?))
        }
        Conjunct::Many(_) => Ok(met),
    }
}

// Those of the ids that are among others, if there are others.
fn intersect(alloc: Global, met: Option<IdSet>, ids: IdSet) -> Result<IdSet, NoMemory>
    ensures { IfOk result (AreThose (λ id. is_among met id && has_id ids id)) }
{
    match met {
        Some(met) => intersection_of(alloc, &met, &ids),
        None => Ok(ids),
    }
}
