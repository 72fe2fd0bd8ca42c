use bb_state::CopyFault;

/// What came of the commands so far, beside what they left in the state.
#[derive(Clone, Copy, Debug)]
pub(crate) struct SoFar {
    /// A boot was run.
    pub booted: bool,
    /// The fault of the device that ended a command, if one did.
    pub fault: Option<CopyFault>,
}
