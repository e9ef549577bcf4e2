//! A query in which names are resolved to numbers of fields.

use agg_laws::AggKind;
use data_types::{Boxed, Name, Seq};
use values::{CompareOp, Test, Value};

/// A condition on a row: a test of the value of one field, or all or any of some conditions.
#[derive(Debug, Drop)]
pub enum Wide {
    Leaf(u16, Test),
    All(Seq<Wide>),
    Any(Seq<Wide>),
}

/// A member of the conjunction that is the filter of a query.
#[derive(Debug, Drop)]
pub enum Conjunct {
    /// It names one column.
    One(u16, Test),
    /// It names two columns or more.
    Many(Wide),
}

/// An aggregate of a field, or `None` for the count of rows: what a query asks for, and what a
/// star-tree keeps of a group of rows.
#[derive(Clone, Copy, Debug, PartialEq, Eq)]
pub struct Agg {
    pub kind: AggKind,
    pub column: Option<u16>,
}

/// A column of the answer: a place among the group columns, or among the aggregates.
#[derive(Clone, Copy, Debug, PartialEq, Eq)]
pub enum Item {
    Group(u16),
    Agg(u16),
}

/// What an answer is ordered by.
#[derive(Clone, Copy, Debug, PartialEq, Eq)]
pub struct OrderKey {
    pub item: Item,
    pub descending: bool,
}

/// A condition on a group: a test of a group column or of an aggregate, by its place among them, or
/// conditions that are joined.
#[derive(Drop)]
pub enum Having {
    Group(u16, CompareOp, Value),
    Agg(u16, CompareOp, i64),
    All(Seq<Having>),
    Any(Seq<Having>),
    Not(Boxed<Having>),
}

/// A query over the fields of one table.
#[derive(Drop)]
pub struct BoundQuery {
    /// Whether a star-tree may answer it.
    pub use_tree: bool,
    /// The filter: all of these hold.
    pub conjuncts: Seq<Conjunct>,
    /// The numbers of the group columns, without repeats.
    pub groups: Seq<u16>,
    /// The aggregates, without repeats.
    pub aggs: Seq<Agg>,
    pub items: Seq<Item>,
    /// One label per item.
    pub labels: Seq<Name>,
    pub order: Seq<OrderKey>,
    pub offset: u64,
    pub limit: u64,
    /// Which groups are answered; each where it is `None`.
    pub having: Option<Having>,
}
