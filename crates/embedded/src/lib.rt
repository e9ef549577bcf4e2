//! A store inside a program: a table and its segments over a depot, as one value. Segments are
//! built of CSV texts and of rows that the program made, and queries are answered over the rows of
//! all of them.
#![tactic(auto)]

mod building;
mod fault;
mod making;
mod reading;
mod rows;
mod store;

pub use fault::{Fault, Refused};
pub use store::Store;
