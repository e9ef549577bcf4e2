//! Picks: ranges of documents that are to be read.

use data_types::Seq;

/// The documents from `start` up to `end`, whose dimensions from `level` on are still to be tested.
/// The one document that stands for all of a node has the number of dimensions as its level.
#[derive(Clone, Copy, Debug, PartialEq, Eq)]
pub struct Pick {
    pub start: u32,
    pub end: u32,
    pub level: u32,
}

/// The picks of a walk, in its order.
pub type Picks = Seq<Pick>;
