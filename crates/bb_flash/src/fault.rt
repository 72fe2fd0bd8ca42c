/// What a memory board does at a planned call in place of answering Ok.
#[derive(Clone, Copy, Debug, PartialEq, Eq)]
pub enum Fault {
    /// The call answers Failed. What it was to write is filled.
    Fail(Fill),
    /// A power cut: the call fails in the same way, and so does every later call, which changes
    /// nothing, until a restart.
    Cut(Fill),
}

/// What a failed call leaves in the range that it was to write. A read has no such range.
#[derive(Clone, Copy, Debug, PartialEq, Eq)]
pub enum Fill {
    /// What was there before.
    Old,
    /// The first half of the new bytes, rounded down.
    Half,
    /// The byte 0xA5 everywhere.
    Junk,
    /// Pages that are Lost.
    Lost,
}
