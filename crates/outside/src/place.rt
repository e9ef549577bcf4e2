//! Parts of files.
use crate::Name;

/// Some bytes of a file: `length` of them, from `offset` on.
#[derive(Debug, Drop, PartialEq, Eq)]
pub struct Place {
    pub file: Name,
    pub offset: u64,
    pub length: u64,
}
