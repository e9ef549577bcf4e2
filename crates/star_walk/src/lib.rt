//! The walk through a star-tree: which documents answer a query.
#![tactic(auto)]

mod coalescing;
mod laws;
mod pick;
mod task;
mod walking;

pub use coalescing::coalesced;
pub use data_types::NoMemory;
pub use laws::{coalesced_law, covered_law, walk_law, walkable_law};
pub use pick::{Pick, Picks};
pub use task::Task;
pub use walking::walk;
