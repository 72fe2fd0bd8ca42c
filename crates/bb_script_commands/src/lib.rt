//! The commands and variables that a script has from a state and its board: the variables of the
//! state, `state -s`, `bootchooser -s` and `-i`, and `boot bootchooser` (barebox User Manual, State
//! Framework and Bootchooser). It knows no words of a command line, and sends nothing itself.
#![tactic(auto)]

mod boot;
mod directions;
mod run;
mod run_command;
mod run_end;
mod save;
mod script_commands;
mod show;
mod so_far;
mod state_name;
mod variables;
mod words;

pub use run::run_script;
pub use run_end::{RunEnd, RunResult};
pub use script_commands::ScriptCommands;
