/// Why the machine starts.
#[derive(Clone, Copy, Debug, PartialEq, Eq)]
pub enum Cause {
    /// Power was switched on.
    PowerOn,
    /// It was reset.
    Reset,
    /// Another cause, or none that is known.
    Other,
}
