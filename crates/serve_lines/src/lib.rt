//! The lines of `serve`: what each answers over cursors and a store, and how they begin and end.
#![tactic(auto)]

mod batch;
mod cursor;
mod line;
mod number;
mod reply;
mod rows;
mod session;
mod stop;

pub use batch::{begin, finish};
pub use line::answer_line;
pub use number::count_line;
pub use session::Session;
