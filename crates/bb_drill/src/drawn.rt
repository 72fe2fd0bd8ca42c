use crate::DrillCommand;
use bb_flash::Fill;

/// A power cut that is planned in a session.
#[derive(Clone, Copy, Debug, PartialEq, Eq)]
pub struct PlannedCut {
    /// The flash call, counted from the session's first, which is 0.
    pub call: u32,
    /// What the cut leaves in the range that this call was to write.
    pub fill: Fill,
}

/// What is drawn for one session.
#[derive(Clone, Copy, Debug, PartialEq, Eq)]
pub struct DrawnSession {
    pub command: DrillCommand,
    /// The cut in it, if one is drawn.
    pub cut: Option<PlannedCut>,
    /// The copy that decays after it, counted from 0, if one is drawn.
    pub decay: Option<u32>,
}
