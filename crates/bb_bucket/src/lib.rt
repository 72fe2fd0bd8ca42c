//! Buckets: places on a device that hold one record each, and outlive a cut of power at any moment.
//! Only the crates that keep copies may know it.
#![tactic(auto)]

mod block;
mod block_store;
mod bucket;
mod entry;
mod look;
mod one_block;
mod parts;
mod pieces;
mod seen;
mod store;
mod stride;

pub use block::Block;
pub use bucket::{Bucket, Found};
pub use entry::{FRONT_LEN, whole_pages};
pub use one_block::OneBlock;
pub use parts::{erase_block, program_part, read_part};
pub use pieces::{Pieces, give_part, read_pieces};
pub use seen::{Look, NOTHING, Seen, look_with};
pub use stride::Stride;
