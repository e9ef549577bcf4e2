//! A pool of slots, each a row of states: owners take them within their quotas, and give them back.
#![tactic(auto)]

mod cells;
mod laws;
mod pool;
mod slot;
mod units;
mod wide;

pub use laws::pool_law;
pub use pool::SlotPool;
pub use slot::Slot;
