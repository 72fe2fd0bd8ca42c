//! Whole sessions over copies that are cut, failed and mended: what a load gives after each, on
//! boards in memory. Nothing stands on it.
#![tactic(auto)]

#[cfg(test)]
mod tests;
