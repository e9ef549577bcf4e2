//! The settings of tables, as Pinot's users write them in JSON.
#![tactic(auto)]

mod laws;
mod settings_text;

pub use laws::settings_law;
pub use settings_text::read_settings;
