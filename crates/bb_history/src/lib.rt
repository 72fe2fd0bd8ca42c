//! The history of a device: the records that pass among those that its copies' regions still hold,
//! oldest first, as lines of text. It reads, and changes nothing. Sessions may know it; it knows no
//! words and no work.
#![tactic(auto)]

mod entry;
mod fault;
mod history;
mod law;
mod lines;
mod log;
mod places;
mod region;
mod room;

pub use fault::HistoryFault;
pub use history::read_history;
pub use law::law_newest_is_last;
