//! Texts in JSON, the checks of their keys, and the paths at which these fail.
//! What stands at a key or a place of the settings of a table: the name of a column, a leaf size.
#![tactic(auto)]

mod columns;
mod fault;
mod json;
mod keys;
mod leaf;
mod path;

pub use columns::{column_at, is_member, text_at};
pub use fault::{KeyKind, KeyPath, TextFault};
pub use json::{array_of, key_of, read_json};
pub use keys::{check_not, check_object, check_unused, optional_array, required_text};
pub use leaf::read_leaf;
pub use path::{at_place, below, fault_at, key_fault, place_fault};
