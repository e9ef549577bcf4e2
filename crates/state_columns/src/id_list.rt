//! Lists of dictionary ids.

use data_types::Seq;

/// The id that stands for any value of its dimension, above each other id.
pub const STAR: u32 = 4294967295;

/// A combination of dictionary ids, in the split order of a star-tree.
pub type Ids = Seq<u32>;
