//! Boots over a board in memory: the worked ones, starts that fail, and a fault at each call of the
//! flash. Nothing stands on it.
#![tactic(auto)]

#[cfg(test)]
mod tests;
