//! A table.

use crate::{Schema, Settings};

/// A schema, and settings that speak of its fields.
#[derive(Drop)]
pub struct Table {
    pub schema: Schema,
    pub settings: Settings,
}
