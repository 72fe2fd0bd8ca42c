//! Whole sessions that boot a board until no target is left, with cuts and failed starts on the
//! way, and sessions that run a script, on boards in memory. Nothing stands on it.
#![tactic(auto)]

#[cfg(test)]
mod tests;
