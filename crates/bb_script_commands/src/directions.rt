use bb_chooser::{Cause, Chooser};
use bb_flash::PlanList;

/// What the commands go by.
#[derive(Drop)]
pub(crate) struct Directions {
    pub chooser: Chooser,
    /// The plan of each target, if it has one.
    pub plans: PlanList,
    /// Why the machine starts.
    pub cause: Cause,
}
