//! Values that ascend, cut by a bound, and the ids of those that stand in one way to it. None is
//! tested.

ghost use Rattle.std.specs.Prelude.{◌≤◌, length, IfOk};
ghost use Rattle.std.proofs.Props.{props};
ghost use Rattle.values.specs.Order.{value_order};
ghost use Rattle.values.specs.Tests.{op_holds};
ghost use Rattle.value_ids.specs.Dictionary.{Ascends, most_values};
ghost use Rattle.value_ids.specs.Ids.{Cuts, Picks};

use crate::{IdSet, ValueList, complement_of, range_of};
use std::alloc::Global;
use std::cmp::Ordering;
use values::{CompareOp, NoMemory, Value};

/// Ascending values, none of them twice, and no more than a column has.
#[derive(Clone, Copy)]
pub struct AscendingValues<'a> {
    pub values: &'a ValueList,
    ghost at_most: { length values.now ≤ most_values },
    ghost ascends: { Ascends values.now } by { Prim.hlevel props },
}

/// Where ascending values are cut by a bound: at the first that is not less, and at the first that
/// is greater.
#[derive(Clone, Copy)]
pub struct Cut {
    pub from: u32,
    pub to: u32,
}

/// Where a bound cuts values; it is found by halving.
pub fn cut_at(ascending: AscendingValues<'_>, bound: &Value) -> Cut
    ensures { Cuts ascending.entry.values.now bound.now result.from result.to }
{
    let mut low = 0;
    let mut high = ascending.values.len() as u32;
    'halves: while low < high {
        let middle = low + (high - low) / 2;
        match ascending.values.order_at(middle as usize, bound) {
            Ordering::Less => low = middle + 1,
            Ordering::Greater => high = middle,
            Ordering::Equal => {
                return Cut {
                    from: middle,
                    to: middle + 1,
                };
            }
        }
    }
    Cut { from: low, to: low }
}

/// The ids of the values that stand so to a bound: those of one run, or all others.
pub fn compared(
    alloc: Global,
    op: CompareOp,
    bound: &Value,
    ascending: AscendingValues<'_>,
) -> Result<IdSet, NoMemory>
    ensures { IfOk result (Picks (λ value. op_holds op (value_order value bound.now))
        ascending.entry.values.now) }
{
    let count = ascending.values.len() as u32;
    let Cut { from, to } = cut_at(ascending, bound);
    match op {
        CompareOp::Equal => range_of(alloc, from, to),
        CompareOp::Unequal => complement_of(alloc, count, &range_of(alloc, from, to)?),
        CompareOp::Less => range_of(alloc, 0, from),
        CompareOp::AtMost => range_of(alloc, 0, to),
        CompareOp::More => range_of(alloc, to, count),
        CompareOp::AtLeast => range_of(alloc, from, count),
    }
}
