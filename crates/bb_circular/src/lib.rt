//! A bucket that writes a block of an erased device as a log, so that the block is erased once for
//! many records. Only the crates that keep copies, or read what a log still holds, may know it.
#![tactic(auto)]

mod circular;
mod entry;
mod kept;
mod last_page;
mod look;
mod store;
mod walk;

pub use circular::Circular;
pub use entry::CLOSING_LEN;
pub use kept::Entry;
pub use walk::entry_before;
