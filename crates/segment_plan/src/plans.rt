//! What is to be done with a segment.

use data_types::Seq;

/// How the rows that satisfy a conjunct are found.
#[derive(Clone, Copy, Debug, PartialEq, Eq)]
pub enum IndexChoice {
    /// The rows are looked at.
    Unindexed,
    /// By the runs of the sorted column.
    Sorted,
    /// By the inverted index of the column.
    Inverted,
    /// By the range index of the column.
    Range,
}

/// A choice for each conjunct, in their order.
#[derive(Drop)]
pub struct ScanPlan {
    pub choices: Seq<IndexChoice>,
}

/// What is to be done with a segment for a query.
#[derive(Drop)]
pub enum SegmentPlan {
    /// Nothing: by the bounds of its columns no row satisfies the query.
    Pruned,
    /// Nothing: no value of some column satisfies the conjuncts on it.
    Empty,
    /// The star-tree of this number answers.
    StarTree(u8),
    /// The rows are scanned.
    Scan(ScanPlan),
}
