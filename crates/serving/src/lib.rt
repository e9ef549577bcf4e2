//! Cursors over the segments of a store, which answer a segment after the other while segments are
//! built, dropped and replaced: each within its quota of groups, and over the rows that were live
//! when it was opened.
#![tactic(auto)]

mod aside;
mod closing;
mod fault;
mod serving;

pub use cursors::{Cursor, MOST_CURSOR_GROUPS, MOST_CURSORS};
pub use fault::ServeFault;
pub use serving::Serving;
