//! The words of a command, why it is refused, its note lines and how it ends.
#![tactic(auto)]

mod about;
mod aim;
mod bad_query;
mod command;
mod fault;
mod line;
mod note;
mod serve_line;
mod status;
mod stop;

pub use about::About;
pub use aim::Aim;
pub use bad_query::QueryReason;
pub use command::{Batch, Command, batch_asked, may_write, read_command, rows_asked};
pub use fault::Fault;
pub use line::{note_line, status_of};
pub use note::{Counted, Note};
pub use serve_line::{ServeLine, read_serve_line};
pub use status::Status;
pub use stop::Stop;
