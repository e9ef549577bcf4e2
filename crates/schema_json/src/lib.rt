//! Schemas, as Pinot's users write them in JSON.
//! The fields that a schema in JSON describes: where they are, and what each says.
#![tactic(auto)]

mod defaults;
mod entry;
mod field_text;
mod laws;
mod parts;
mod schema_text;

pub use entry::{Entry, path_of};
pub use laws::schema_law;
pub use parts::is_among;
pub use schema_text::read_schema;
