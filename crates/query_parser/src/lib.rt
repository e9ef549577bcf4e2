//! The text of a query as a tree, or the first place where it is no query.
//! A cursor over the tokens of a text, and the signs of comparisons.
//! The symbols of the grammar of queries: conditions, lists, terms and the parts of a query.
#![tactic(auto)]

mod condition;
mod cursor;
mod having;
pub mod laws;
mod lists;
mod operators;
mod query;
mod terms;
mod where_clause;
mod whole_condition;
mod whole_query;

pub use condition::{Condition, cond};
pub use cursor::Tokens;
pub use lists::{Member, list};
pub use operators::operator;
pub use query::{Selected, Shaped, options, selection, shape};
pub use terms::{literal, name};
pub use whole_query::parse;
