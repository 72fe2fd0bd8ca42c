//! Drills of a small store of three copies, and of one that is made wrong, as tests alone. Nothing
//! stands on it.
#![tactic(auto)]

#[cfg(test)]
mod tests;
