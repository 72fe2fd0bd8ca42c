/// The newest entry of a block: whole pages that end in its closing words.
#[derive(Clone, Copy, Debug, PartialEq, Eq)]
pub struct Entry {
    /// Where it begins, in bytes from the block's start.
    pub at: u32,
    /// How many bytes it has, its closing words among them.
    pub len: u32,
}

/// What a bucket keeps of its block from one call to the next.
#[derive(Clone, Copy, Debug, PartialEq, Eq)]
pub struct Kept {
    /// Where the next entry goes, in bytes from the block's start.
    pub next: u32,
    /// The entry whose record stands there, if one does.
    pub newest: Option<Entry>,
}
