//! The commands: a query over a CSV file, the making of a store, what it has, and queries of it.
#![tactic(auto)]

pub mod attach;
pub mod build;
pub mod create;
pub mod drop;
pub mod generate;
mod generated;
pub mod laws;
pub mod list;
pub mod look;
pub mod query;
pub mod scan;
pub mod script;
