//! Whole sessions by the example board's devicetree as source and as blobs: what is sent and left
//! is the same. Nothing stands on it.
#![tactic(auto)]

#[cfg(test)]
mod tests;
