//! One command of the store, or a file of lines, from the words to the replies.
#![tactic(auto)]

mod finish;
mod laws;
mod run;
mod script;
mod serve;

pub use command_words::{Status, may_write};
pub use laws::{
    answer_law, done_prints_law, from_empty_law, generate_prints_law, generate_reads_law,
    generate_steps_law, generate_stops_law, headline_law, ingested_law, promises_compose_law,
    script_reads_law, segments_read_law, served_law,
};
pub use run::run_command;
