//! Devicetrees. Sources that are read or refused, and trees that are merged, labelled and looked
//! through; blobs that are cut, changed byte by byte, deep, long, or compiled of a source, and what
//! the reader answers to each. Nothing stands on it.
#![tactic(auto)]

#[cfg(test)]
mod dts;
#[cfg(test)]
mod fdt;
