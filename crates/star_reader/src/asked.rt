//! What a query asks of the documents of a star-tree.

use dictionary::Dictionary;

/// A group column of a query: which split dimension it is, and the values that its ids stand for.
#[derive(Clone, Copy)]
pub struct GroupColumn<'a> {
    pub dim: u8,
    pub values: &'a Dictionary,
}

/// The group columns of a query, in its order, and for each of its aggregates the number of the
/// pair that it is.
#[derive(Clone, Copy)]
pub struct Asked<'a> {
    pub columns: &'a [GroupColumn<'a>],
    pub pairs: &'a [u8],
}
