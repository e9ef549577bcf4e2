//! A node of a star-tree.

/// A node of a star-tree, whose documents are those from `start` up to `end`.
#[derive(Clone, Copy, Debug, PartialEq, Eq)]
pub struct Node {
    /// How many levels are above it: 0 at the root.
    pub level: u32,
    /// Its id in the dimension of the level above, or `STAR`.
    pub id: u32,
    pub start: u32,
    pub end: u32,
    /// The number of the one document that stands for all of them.
    pub total: u32,
    /// The number of its first child, or 0 at a leaf.
    pub first: u32,
    /// How many children it has.
    pub children: u32,
}
