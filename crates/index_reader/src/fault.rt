//! Why the places of ids are not read.

/// Why the places of ids are not read.
#[derive(Clone, Copy, Debug, PartialEq, Eq)]
pub enum ListFault {
    /// The shelf failed, and its count of faults rose.
    ReadFault,
    /// The section is not that of any ids of its count and its number of rows.
    BadList,
    NoMemory,
}
