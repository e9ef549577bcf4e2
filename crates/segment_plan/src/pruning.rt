//! Segments that the bounds of their columns exclude.
ghost use Rattle.std.specs.Prelude.{◌≡◌};
ghost use Rattle.std.specs.List.{list_any};
ghost use Rattle.segment_plan.specs.Pruning as spec;

use segment_head::Head;
use table_schema::{BoundQuery, Conjunct};
use values::may_hold;

/// Whether the segment has no row for the query by its bounds alone: it has no rows at all, or a
/// conjunct on one column holds of no value between the column's bounds. It takes no memory.
pub fn prune(query: &BoundQuery, head: &Head) -> bool
    ensures { result ≡ spec.is_pruned query.now head.now }
{
    head.rows() == 0 || are_excluded(query.conjuncts.as_slice(), head)
}

// The bounds exclude one of the conjuncts.
fn are_excluded(conjuncts: &[Conjunct], head: &Head) -> bool
    ensures { result ≡ list_any (spec.is_excluded head.now.bounds) conjuncts.now }
{
    conjuncts.iter().any(|conjunct| is_excluded(conjunct, head))
}

// The conjunct names one column, whose bounds exclude it.
fn is_excluded(conjunct: &Conjunct, head: &Head) -> bool
    ensures { result ≡ spec.is_excluded head.now.bounds conjunct.now }
{
    match conjunct {
        Conjunct::One(column, test) => match head.bounds(*column) {
            Some((least, greatest)) => !may_hold(test, least, greatest),
            None => false,
        },
        Conjunct::Many(_) => false,
    }
}
