//! The settings of a table.

use crate::Agg;
use agg_laws::TreeShape;
use data_types::{Name, Seq};

/// What a star-tree keeps of a group of rows.
pub type Pair = Agg;

/// The settings of one star-tree.
#[derive(Drop)]
pub struct TreeSetting {
    /// The numbers of the split dimensions, in split order.
    pub split: Seq<u16>,
    pub pairs: Seq<Pair>,
    pub shape: TreeShape,
}

/// The settings of a table. Each list of bools has one entry per field.
#[derive(Drop)]
pub struct Settings {
    /// The name of the table, without `_OFFLINE` at its end.
    pub table: Name,
    /// The number of the sorted column.
    pub sorted: Option<u16>,
    /// Which fields have an inverted index.
    pub inverted: Seq<bool>,
    /// Which fields have a range index.
    pub ranged: Seq<bool>,
    /// Which fields are to be kept without a dictionary.
    pub raw: Seq<bool>,
    pub trees: Seq<TreeSetting>,
}
