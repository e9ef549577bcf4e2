//! Conditions on the rows of a segment, by their ids.

use coded_columns::Ids;
use data_types::Seq;
use value_ids::IdSet;

/// A condition on the rows of a segment, by their ids.
#[derive(Drop)]
pub enum RowFilter<'a> {
    /// The row's id in a column is in a set.
    Ids(&'a Ids, IdSet),
    /// It holds for all rows, or for none.
    Fixed(bool),
    All(Seq<RowFilter<'a>>),
    Any(Seq<RowFilter<'a>>),
}
