//! Whole sessions on boards in memory: those that stop at a call of the device, cut off or failed,
//! over copies that differ; those that find a page worn or lost; and those whose files or output
//! fail. Nothing stands on it.
#![tactic(auto)]

#[cfg(test)]
mod tests;
