use bb_base::NoMemory;

/// Why there are no plans. Targets are counted from 0.
#[derive(Clone, Copy, Debug, PartialEq, Eq)]
pub enum PlanFault {
    /// Reading the entry's file of this target met a fault.
    FileFault(usize),
    /// The entry's file of this target has more than 1,048,576 bytes.
    FileTooLong(usize),
    /// An allocation was refused.
    NoMemory,
}

impl From<NoMemory> for PlanFault {
    ghost use Rattle.std.specs.Prelude.{◌≡◌};
    ghost use Rattle.bb_shell.specs.declared.plan_fault.PlanFault.{PlanFault};
    ghost use Rattle.bb_shell.specs.declared.plan_fault.PlanFault.TheVariants.{NoMemory};

    ghost from_gives = { λ _ e. e ≡ NoMemory };

    fn from(_: NoMemory) -> Self {
        PlanFault::NoMemory
    }
}
