//! Combinations of ids in which a dimension is starred, and their order.

ghost use Rattle.std.specs.Prelude.{◌≡◌, ◌<◌, length};
ghost use Rattle.agg_laws.specs.Tree.{dim, dims_order, set_star};

use crate::id_list::STAR;
use std::cmp::Ordering;

/// The order of two combinations, where one dimension is starred in both.
pub fn compare_starred(x: &[u32], y: &[u32], level: usize) -> Ordering
    ensures { result ≡ dims_order (set_star level x.now) (set_star level y.now) }
{
    for at in 0..x.len() {
        if at >= y.len() {
            return Ordering::Greater;
        }
        let order = starred_id(x, at, level).cmp(&starred_id(y, at, level));
        if order.is_ne() {
            return order;
        }
    }
    x.len().cmp(&y.len())
}

/// The id of a dimension, where one dimension is starred.
pub(crate) fn starred_id(ids: &[u32], at: usize, level: usize) -> u32
    requires { at < length ids.now }
    ensures { result ≡ dim at (set_star level ids.now) }
{
    if at == level { STAR } else { ids[at] }
}

/// How a combination compares to another one in which a dimension is starred.
pub fn compare_to(x: &[u32], y: &[u32], level: usize) -> Ordering
    ensures { result ≡ dims_order x.now (set_star level y.now) }
{
    for at in 0..x.len() {
        if at >= y.len() {
            return Ordering::Greater;
        }
        let order = x[at].cmp(&starred_id(y, at, level));
        if order.is_ne() {
            return order;
        }
    }
    x.len().cmp(&y.len())
}
