use crate::events::Events;

/// What counts for all targets.
#[derive(Clone, Copy, Debug, PartialEq, Eq)]
pub(crate) struct Rules {
    pub reset_attempts: Events,
    /// Whether priorities get their defaults back where all are 0.
    pub reset_priorities: bool,
    /// Whether another target is tried in the same session after one that failed.
    pub retry: bool,
    /// Whether a target loses its priority with its last attempt.
    pub disable_on_zero_attempts: bool,
}
