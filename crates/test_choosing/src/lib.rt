//! Choosers of three targets, tried over whole tables of priorities and attempts. Nothing stands on
//! it.
#![tactic(auto)]

#[cfg(test)]
mod tests;
