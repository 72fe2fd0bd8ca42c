//! Bootchooser's settings, the targets that they name, and which target starts next (barebox User
//! Manual, Bootchooser). Sessions stand on it; it knows variables of a layout and tables, and
//! neither devices nor files.
#![tactic(auto)]

mod after;
mod bind;
mod bound_target;
mod cause;
mod chooser;
mod count;
mod events;
mod fault;
mod given;
mod key;
mod line;
mod names;
mod number;
mod read;
mod resets;
mod rules;
mod setting;
mod settings;
mod settings_error;
mod target;
mod value;
mod writes;

pub use cause::Cause;
pub use chooser::Chooser;
pub use settings::Settings;
pub use settings_error::SettingsError;
