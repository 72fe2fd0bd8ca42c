//! A script of three saves and a boot that meets a fault at each call of the flash. Nothing stands
//! on it.
#![tactic(auto)]

#[cfg(test)]
mod tests;
