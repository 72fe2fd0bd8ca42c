//! Variables of a state: their kinds, their values as text and as bytes, and the table of bytes
//! that holds them. Layouts, states and choosers stand on it; it knows neither where a variable
//! stands nor what it is called.
#![tactic(auto)]

mod kind;
mod law;
mod mac;
mod print;
mod read;
mod table;
mod value_error;

pub use kind::Kind;
pub use law::{law_print_then_read, law_read_then_print, law_set_changes_its_range};
pub use print::print_value;
pub use read::{check_value, read_value};
pub use table::Table;
pub use value_error::ValueError;
