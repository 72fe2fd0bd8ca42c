//! Whole sessions that install an image, on boards in memory: each of their calls cut off or
//! failed, with each filling, and the boot after it; and sessions that compare a slot with an
//! image. Nothing stands on it.
#![tactic(auto)]

#[cfg(test)]
mod tests;
