//! Scripts of a small shell: the reader of a script's text, and the fields that its words expand
//! to. What runs scripts may know it; it knows neither variables nor devices.
#![tactic(auto)]

mod build;
mod command;
mod error;
mod expand;
mod fields;
mod fields_so_far;
mod keyword;
mod lexeme;
mod loop_start;
mod misplaced;
mod next_token;
mod open_word;
mod piece;
mod read;
mod reader;
mod script;
mod spelt_script;
mod token;
mod token_kind;
mod word;

pub use error::ScriptError;
pub use expand::expand_words;
pub use fields_so_far::{EXPANSION_LIMIT, ScriptVariables};
pub use misplaced::NESTING_LIMIT;
pub use read::{SCRIPT_LIMIT, read_script};
pub use script::{
    Assignment, Choice, ForLoop, Otherwise, Script, ScriptBranch, ScriptCommand, ScriptStep, When,
};
pub use spelt_script::SpeltScript;
pub use word::{Special, Word, WordPart};
