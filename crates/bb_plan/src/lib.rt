//! What a session does before the device: its words, the files that they name, and the plan of what
//! it is to do, or why it is refused. The session on the device stands on it; it makes no call of a
//! device.
#![tactic(auto)]

mod described;
mod entries;
mod file;
mod image;
mod install;
mod key;
mod menu;
mod plan;
mod planning;
mod refusal;
mod request;
mod script;
mod slot;
mod status;
mod targets;

pub use described::KeyedLayout;
pub use plan::{PlannedTask, PlannedWork, SlotImage, Work};
pub use planning::plan_session;
pub use refusal::Refusal;
pub use request::Request;
pub use status::Status;
