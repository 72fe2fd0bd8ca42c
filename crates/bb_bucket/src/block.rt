use bb_flash::Region;

/// A region that is one block of a device that is erased in blocks.
#[derive(Clone, Copy, Debug, PartialEq, Eq)]
pub struct Block {
    /// Where it stands, and the block's size.
    pub region: Region,
    /// What is programmed at once, in bytes.
    pub page: u32,
}
