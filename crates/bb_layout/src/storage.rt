/// How the copies stand in their partition.
#[derive(Clone, Copy, Debug, PartialEq, Eq)]
pub enum Storage {
    /// Each in a stride of so many bytes, on a device that is overwritten in place.
    Stride(u32),
    /// Each in an erase block, which holds one record and is erased for each that is written.
    OneBlock,
    /// Each in an erase block, which holds a log of records and is erased where it is full.
    Circular,
}
