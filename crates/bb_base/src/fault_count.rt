ghost use Rattle.std.specs.Prelude.{◌≡◌};
ghost use Rattle.bb_base.specs.Faults.{one_more};

/// How many calls failed, but at most 2^64 - 1.
#[derive(Clone, Copy, Debug, PartialEq, Eq)]
pub struct FaultCount {
    /// The number.
    pub count: u64,
}

impl FaultCount {
    /// No call failed yet.
    pub fn none() -> FaultCount
        ensures { result.count ≡ 0 }
    {
        FaultCount { count: 0 }
    }

    /// One more call failed.
    pub fn raise(&mut self)
        ensures { self.new.count ≡ one_more self.old.count }
    {
        self.count = self.count.saturating_add(1);
    }
}
