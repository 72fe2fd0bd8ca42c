use bb_state::CopyFault;

/// How a boot ended. Targets are counted from 0.
#[derive(Clone, Copy, Debug, PartialEq, Eq)]
pub enum BootEnd {
    /// A target was started, in the last of `tries` rounds. `left` of its attempts are left.
    Started { target: u32, left: u32, tries: u64 },
    /// No target qualified, so there was no round.
    NoTarget,
    /// The target of the last of `tries` rounds has no plan, or its start failed.
    StartFailed { target: u32, tries: u64 },
    /// The save of the last round was refused.
    Fault(CopyFault),
}
