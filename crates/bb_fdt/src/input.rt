use std::alloc::Global;

/// What a reader of the structure block knows: the strings block, and the offset at which the
/// structure block ends.
#[derive(Clone, Copy)]
pub(crate) struct Input<'a> {
    pub alloc: Global,
    pub strings: &'a [u8],
    pub end: usize,
}
