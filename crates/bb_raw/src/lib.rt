//! The raw record: a header of 16 bytes with the checks, the area after it, and under a key the
//! HMAC of both. Only the crates that choose a record's format may know it; what keeps records
//! knows `Format` alone.
#![tactic(auto)]

mod feed;
mod raw;

pub use feed::RawFeed;
pub use raw::{HEADER_LEN, Raw};
