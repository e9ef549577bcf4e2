//! Which sections tell the documents of ids.

/// Which section of a column tells the documents of ids.
#[derive(Clone, Copy, Debug, PartialEq, Eq)]
pub enum ListKind {
    /// That of a sorted column.
    Sorted,
    /// That of an inverted index.
    Inverted,
}
