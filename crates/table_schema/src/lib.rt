//! Tables: fields, settings, and queries over the fields, with what makes them valid.
#![tactic(auto)]

mod field;
mod fields;
mod limits;
mod names;
mod query;
mod settings;
mod table;

pub use field::{Field, Role, Schema};
pub use fields::Fields;
pub use limits::most_rows;
pub use names::is_column_name;
pub use query::{Agg, BoundQuery, Conjunct, Having, Item, OrderKey, Wide};
pub use settings::{Pair, Settings, TreeSetting};
pub use table::Table;
