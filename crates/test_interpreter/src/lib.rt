//! Scripts that are run over commands from outside that keep one variable and count their calls.
//! Nothing stands on it.
#![tactic(auto)]

#[cfg(test)]
mod tests;
