use std::alloc::Global;

/// What every part of the reader is given: the allocator, and the length of the whole text in
/// bytes.
#[derive(Clone, Copy)]
pub(crate) struct Input {
    pub alloc: Global,
    pub total: usize,
}
