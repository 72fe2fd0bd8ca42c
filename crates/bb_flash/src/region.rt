/// A part of a device.
#[derive(Clone, Copy, Debug, PartialEq, Eq)]
pub struct Region {
    /// Where it begins, in bytes from the start of the device.
    pub at: u32,
    /// How many bytes it has.
    pub size: u32,
}
