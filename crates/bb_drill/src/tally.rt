ghost use Rattle.std.specs.Prelude.{◌≡◌, ◌+◌, ◌<◌, ◌^◌};
ghost use Rattle.bb_drill.specs.Running.{one_where};

use crate::met::Met;

/// How often it was met so far.
#[derive(Clone, Copy, Debug)]
pub struct Tally {
    pub cuts: u32,
    pub decays: u32,
    pub wrong: u32,
}

impl Tally {
    ghost use Rattle.bb_drill.specs.Running.{with_met};

    /// Nothing yet.
    pub fn none() -> Tally
        ensures { result ≡ record { cuts = 0; decays = 0; wrong = 0 } }
    {
        Tally {
            cuts: 0,
            decays: 0,
            wrong: 0,
        }
    }

    /// With what one session met.
    pub fn with(self, met: Met) -> Tally
        requires cuts { self.cuts + 1 < 2 ^ 32 }
        requires decays { self.decays + 1 < 2 ^ 32 }
        requires wrong { self.wrong + 1 < 2 ^ 32 }
        ensures { result ≡ with_met met self }
    {
        Tally {
            cuts: self.cuts + u32::from(met.cut),
            decays: self.decays + u32::from(met.decay),
            wrong: self.wrong + u32::from(met.wrong),
        }
    }
}
