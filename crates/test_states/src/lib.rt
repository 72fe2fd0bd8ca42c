//! States of one variable over boards in memory, in strides and in logs, with a key and without.
//! Nothing stands on it.
#![tactic(auto)]

#[cfg(test)]
mod tests;
