/// A flash call on a slot failed.
#[derive(Clone, Copy, Debug, PartialEq, Eq)]
pub struct SlotFault {
    /// Where that call began, in bytes from the device's start.
    pub at: u32,
}
