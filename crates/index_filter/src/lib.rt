//! The documents that the indexes of a segment leave for the conjuncts of a query.
#![tactic(auto)]

mod candidates;
mod index;

pub use candidates::documents;
