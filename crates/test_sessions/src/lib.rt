//! Whole sessions, tried on boards, files and outputs in memory: what is sent, and what is left.
//! Nothing stands on it.
#![tactic(auto)]

#[cfg(test)]
mod tests;
