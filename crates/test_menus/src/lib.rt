//! Versions, entries and folders as they stand in a menu, as tests alone. Nothing stands on it.
#![tactic(auto)]

#[cfg(test)]
mod tests;
