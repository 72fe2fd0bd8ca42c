/// Why a devicetree gives no slot of that label.
#[derive(Clone, Copy, Debug, PartialEq, Eq)]
pub enum SlotError {
    /// No node has the label.
    NoSlot,
    /// The node's `reg` is missing, or isn't an offset and a size.
    BadReg,
    /// The slot isn't aligned to erase blocks.
    Unaligned,
    /// The slot reaches past the device.
    OutOfDevice,
    /// The slot shares a byte with the partition of the copies.
    Overlap,
}
