//! Which star-tree may answer a query: the first whose dimensions and pairs serve all of it.
#![tactic(auto)]

mod laws;
mod rule;

pub use laws::eligible_law;
pub use rule::{eligible, pick};
