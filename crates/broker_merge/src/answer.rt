//! Answers of queries.

use data_types::{Name, Seq};
use values::Value;

/// What is written of a group in one column.
#[derive(Debug, Drop)]
pub enum Cell {
    /// A value of the key.
    Kept(Value),
    /// A count, a sum, or the least or greatest number.
    Whole(i128),
    /// An average: a sum, and of how many numbers it is.
    Fraction(i128, u64),
    /// The least or greatest of no number.
    Null,
}

/// The columns of an answer by their labels, and its rows, with a cell a column.
#[derive(Debug, Drop)]
pub struct Answer {
    pub labels: Seq<Name>,
    pub rows: Seq<Seq<Cell>>,
}
