//! Drills of the program's own sessions, as tests alone. Nothing stands on it.
#![tactic(auto)]

#[cfg(test)]
mod tests;
