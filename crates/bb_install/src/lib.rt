//! Slots of a device, into which images of systems are written: where the slot of a label stands,
//! how an image gets there, whether it is there, and its digest. An install writes a slot while
//! its target is disabled. The crate knows flashes, trees, layouts, states and targets; nothing of
//! words or files.
#![tactic(auto)]

mod cells;
mod compare;
mod digest;
mod erase;
mod install_end;
mod label;
mod page_difference;
mod program;
mod slot;
mod slot_error;
mod slot_fault;
mod steps;
mod write;

pub use compare::first_difference;
pub use digest::digest_of;
pub use install_end::InstallEnd;
pub use slot::slot_of;
pub use slot_error::SlotError;
pub use slot_fault::SlotFault;
pub use steps::install;
pub use write::write_slot;
