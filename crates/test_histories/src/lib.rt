//! Whole sessions that send the history of a device: logs that are made entry by entry, damaged
//! ones, and a read that fails at each place, on boards in memory. Nothing stands on it.
#![tactic(auto)]

#[cfg(test)]
mod tests;
