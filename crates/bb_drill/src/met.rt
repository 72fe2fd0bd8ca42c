/// What was met in one session, and after it.
#[derive(Clone, Copy, Debug)]
pub struct Met {
    /// The table that its load gives wasn't allowed.
    pub wrong: bool,
    /// The planned cut was reached.
    pub cut: bool,
    /// A copy decayed.
    pub decay: bool,
}
