//! What the actions among the words of a command do to the variables of a state. They are bound to
//! the variables first, each text of a set as the bytes that it stands for; the first that doesn't
//! fit decides. Then their values are put into a table, and the text is made of what is got and
//! dumped. The program's session stands on it; it knows neither devices nor files.
#![tactic(auto)]

mod bound_action;
mod error;
mod law;
mod read;
mod table;
mod text;

pub use bound_action::{BoundAction, BoundActionList};
pub use error::ActionError;
pub use law::law_put_is_set;
pub use read::read_actions;
pub use table::put_values;
pub use text::actions_text;
