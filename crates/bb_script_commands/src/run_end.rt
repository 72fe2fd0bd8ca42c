use bb_base::Bytes;
use bb_state::{CopyFault, State};

/// How a script over a state ended.
#[derive(Clone, Copy, Debug, PartialEq, Eq)]
pub enum RunEnd {
    /// At its end, with the status of the last command.
    Done(u32),
    /// A target was started.
    Started,
    /// It has more than 10,000 commands and rounds.
    StepLimit,
    /// The device failed.
    Fault(CopyFault),
    /// An allocation was refused. What was done so far stands.
    NoMemory,
}

/// What a script sent, how it ended, and the state that it left.
#[derive(Drop)]
pub struct RunResult {
    pub text: Bytes,
    pub end: RunEnd,
    pub state: State,
}
