//! The boot sequence: the plan of each target, and the rounds in which an attempt is spent, saved,
//! and only then the target is started (barebox User Manual, Bootchooser). Sessions stand on it; it
//! knows no words of a command.
#![tactic(auto)]

mod boot;
mod boot_end;
mod law;
mod outcome;
mod plan_fault;
mod plans;
mod round;

pub use boot::boot_run;
pub use boot_end::BootEnd;
pub use law::{law_attempts, law_rounds};
pub use plan_fault::PlanFault;
pub use plans::read_plans;
