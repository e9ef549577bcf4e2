//! The table of the documents of a star-tree.
#![tactic(auto)]

mod star_table;

pub use star_table::StarTable;
