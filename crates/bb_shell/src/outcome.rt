use bb_state::CopyFault;

/// What came of a round of a boot.
#[derive(Clone, Copy, Debug, PartialEq, Eq)]
pub enum Outcome {
    /// The save was refused, and no start was tried.
    Refused(CopyFault),
    /// The target has no plan, so no start was tried.
    Unplanned,
    /// The start failed.
    Failed,
    /// The start was made.
    Started,
}
