//! A block of rows.

/// Some rows of a segment, one after the other.
#[derive(Clone, Copy)]
pub struct Block {
    pub from: usize,
    pub length: usize,
}
