//! Boards whose trees give layouts or are refused. Nothing stands on it.
#![tactic(auto)]

#[cfg(test)]
mod tests;
