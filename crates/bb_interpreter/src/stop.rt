use bb_base::NoMemory;

/// Why a run doesn't go on.
#[derive(Clone, Copy, Debug, PartialEq, Eq)]
pub enum ScriptStop {
    /// A command started a target.
    Started,
    /// It has more than 10,000 commands and rounds.
    StepLimit,
    /// The device failed.
    Fault,
    /// An allocation was refused.
    NoMemory,
}

impl From<NoMemory> for ScriptStop {
    ghost use Rattle.std.specs.Prelude.{◌≡◌};
    ghost use Rattle.bb_interpreter.specs.declared.stop.ScriptStop.{ScriptStop};
    ghost use Rattle.bb_interpreter.specs.declared.stop.ScriptStop.TheVariants.{NoMemory};

    ghost from_gives = { λ _ e. e ≡ NoMemory };

    fn from(_: NoMemory) -> Self {
        ScriptStop::NoMemory
    }
}
