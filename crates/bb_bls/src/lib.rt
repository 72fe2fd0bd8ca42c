//! Boot entries: which kernel, with which files and options, as the Boot Loader Specification
//! spells it. What chooses and starts targets may know it; it knows neither devices nor states.
#![tactic(auto)]

mod entry;
mod error;
mod line;
mod pairs;
mod values;

pub use entry::{Entry, read_entry};
pub use error::EntryError;
