//! The tokens of a query's text, the tree that they are read to, and why a text is no query.
#![tactic(auto)]

mod fault;
pub mod lex;
mod token;
mod tree;

pub use fault::{QueryFault, Reason};
pub use token::{Kind, Token};
pub use tree::{
    Argument, Call, Cond, Func, HavingCond, LiteralAt, NameAt, Query, QueryItem, QueryKey, Term,
};
