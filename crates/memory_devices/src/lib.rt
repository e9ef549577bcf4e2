//! Devices in memory: maps of files, and shelves and sinks that fail at the calls that they are
//! given. Depots in memory, which fail at the calls that they are given.
#![tactic(auto)]

mod file_map;
mod memory_calls;
mod memory_depot;
mod memory_shelf;
mod memory_sink;
mod read_log;

pub use file_map::FileMap;
pub use memory_depot::MemoryDepot;
pub use memory_shelf::MemoryShelf;
pub use memory_sink::MemorySink;
