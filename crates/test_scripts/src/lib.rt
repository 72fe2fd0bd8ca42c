//! Scripts that are read or refused, and the fields of their words. Nothing stands on it.
#![tactic(auto)]

#[cfg(test)]
mod tests;
