use bb_copies::CopyFault;

/// How an install ended.
#[derive(Clone, Copy, Debug, PartialEq, Eq)]
pub enum InstallEnd {
    /// The slot holds the image, and the target has its default priority and attempts.
    Done,
    /// No other target qualifies. No call of the device was made. In the table in memory the target
    /// is disabled.
    LastTarget,
    /// A call on the slot failed, which began at this place of the device. The target is disabled.
    SlotFault { at: u32 },
    /// A save was refused. The table in memory is the one that was to be saved, and the state isn't
    /// sure.
    Fault(CopyFault),
}
