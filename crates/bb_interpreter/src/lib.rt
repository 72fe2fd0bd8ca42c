//! What runs a script: the flow of its commands, variables of its own, `echo` and `test`, over
//! commands and variables from outside, of which it knows a trait alone. It knows no device.
#![tactic(auto)]

mod assigned;
mod built_in;
mod commands;
mod echo;
mod run;
mod simple;
mod steps;
mod stop;
mod test_words;
mod variables;

pub use built_in::BuiltIn;
pub use commands::{Commands, Reply, SetReply};
pub use echo::echo_text;
pub use run::{ScriptEnd, ScriptRun};
pub use stop::ScriptStop;
pub use test_words::test_status;
