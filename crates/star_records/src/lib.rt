//! The documents of the rows of a segment, merged.
#![tactic(auto)]

mod blocks;
mod fold;
mod merging;
mod projection;
mod slot_docs;
mod slots;
mod sorting;
mod words;

pub use merging::merge_equal;
pub use outside::NoMemory;
pub use projection::project_merged;
