/// When attempts get their defaults back.
#[derive(Clone, Copy, Debug, PartialEq, Eq)]
pub(crate) struct Events {
    /// After power was switched on.
    pub power_on: bool,
    /// After another reset.
    pub reset: bool,
    /// Where each target that has a priority has no attempts.
    pub all_zero: bool,
}
