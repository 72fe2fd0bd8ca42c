/// What a drill counted.
#[derive(Clone, Copy, Debug, PartialEq, Eq)]
pub struct DrillCounts {
    /// The sessions that it ran.
    pub sessions: u32,
    /// The planned cuts whose flash call was reached.
    pub cuts: u32,
    /// The decays.
    pub decays: u32,
    /// The programs that answered Ok.
    pub programs: u64,
    /// The erases that answered Ok, but at most 2^64 - 1.
    pub erases: u64,
    /// The starts that were made.
    pub starts: u32,
    /// The tables that a load gave although it may not.
    pub wrong: u32,
}
