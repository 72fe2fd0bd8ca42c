//! The words of commands, values as text and as bytes, boot entries and lists of actions, each read
//! or refused. Nothing stands on it.
#![tactic(auto)]

#[cfg(test)]
mod tests;
