//! Names and types of a query: the query over the fields of a table, or the first check that fails.
//! The condition of a query over the fields of a table: its names and types, the comparison that is
//! the opposite of another, and the one field that a condition names. And why a query is not one
//! over a table. The parts of a query over the fields of a table: checks, terms, group columns and
//! aggregates, labels and the normal form of its condition, and the bound query of them all.
#![tactic(auto)]

mod assembled;
mod bound;
mod checks;
mod columns;
mod condition;
mod conjuncts;
mod distinct;
mod fault;
mod group_tests;
mod having;
mod items;
mod labels;
pub mod laws;
mod lookups;
mod named_fields;
mod normal;
mod opposite;
mod terms;

pub use bound::bind;
pub use fault::{BindFault, BindReason};
