//! Keys, and HMAC-SHA256 of a text under one (RFC 2104), so that nobody without the key makes a
//! text pass. Only what keeps records under a key, and what reads one, may know it.
#![tactic(auto)]

mod error;
mod key;
mod law;
mod mac;

pub use error::KeyError;
pub use key::Key;
pub use law::law_block_stands_for_key;
pub use mac::{Mac, hmac, same_mac};
