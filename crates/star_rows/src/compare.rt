//! The order of documents.

ghost use Rattle.std.specs.Prelude.{◌≡◌};
ghost use Rattle.agg_laws.specs.Tree.{dims_order};

use state_columns::StarRow;
use std::cmp::Ordering;

/// Compares two documents by their ids in order, of which the star is the greatest. It takes no
/// memory.
pub fn compare_dims(a: &StarRow, b: &StarRow) -> Ordering
    ensures { result ≡ dims_order a.now.dims b.now.dims }
{
    a.dims.as_slice().cmp(b.dims.as_slice())
}
