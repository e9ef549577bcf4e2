//! The head of a segment's file, which is read without the rest: at once, or in steps.
#![tactic(auto)]

mod bounds;
mod check;
mod column_ids;
mod dictionaries;
mod fault;
mod head;
mod laws;
mod loading;
mod lookups;
mod number_pieces;
mod opening;
mod stepwise;
mod stored;
mod tree_reading;
mod trees;

pub use check::check_head;
pub use column_ids::Matched;
pub use fault::{EngineFault, engine_fault};
pub use head::Head;
pub use laws::head_tells_trees_law;
pub use opening::read_head;
pub use outside::NoMemory;
pub use stepwise::open_head;
pub use stored::{Stored, live_segments};
pub use tree_reading::OpenTree;
