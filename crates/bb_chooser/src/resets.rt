/// Which defaults a reset brings back, for all targets.
#[derive(Clone, Copy, Debug, PartialEq, Eq)]
pub(crate) struct Resets {
    pub priorities: bool,
    pub attempts: bool,
}
