/// A call on the outside (the flash, the output) failed. The count of faults of what was called
/// says why.
#[derive(Clone, Copy, Debug, PartialEq, Eq)]
pub struct Failed;
