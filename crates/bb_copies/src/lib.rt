//! An area that is kept in two or three copies, and outlives a cut of power at any moment.
//! It knows of buckets and formats what their traits say. Only bb_state may know it, and
//! bb_history, which reads a copy as a load does.
#![tactic(auto)]

mod answers;
mod copies;
mod load;
mod look;
mod overwrite;
mod read;
mod refresh;
mod room;
mod save;
mod settle;
mod tally;

pub use answers::{CopyFault, Loaded, Saved};
pub use copies::Copies;
pub use read::{PassingCopy, read_copy};
