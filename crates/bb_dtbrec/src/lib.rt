//! The record that is a blob of its own: a small devicetree with the values of the variables, and a
//! CRC of the whole. It is kept as a pattern, which is the same for all areas of one layout, so
//! that records are written and checked field by field. Only the crates that choose a record's
//! format may know it; what keeps records knows `Format` alone.
#![tactic(auto)]

mod crc;
mod dtb;
mod feed;
mod nodes;
mod of_layout;
mod pack;
mod parts;
mod piece;
mod token;
mod walk;

pub use dtb::Dtb;
pub use feed::DtbFeed;

#[cfg(test)]
mod tests;
