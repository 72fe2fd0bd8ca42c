ghost use Rattle.std.specs.Prelude.{◌≡◌};
ghost use Rattle.bb_history.specs.declared.fault.HistoryFault.TheVariants as faults;

use bb_base::{Failed, NoMemory};
use thiserror::Error;

/// Why a history isn't whole. The first that is met is answered.
#[derive(Clone, Copy, Debug, PartialEq, Eq, Error)]
pub enum HistoryFault {
    /// A call of the device failed: its count of failed reads rose by one.
    #[error("a read of the device failed")]
    ReadFault,
    /// An allocation was refused.
    #[error("out of memory")]
    NoMemory,
}

impl From<Failed> for HistoryFault {
    ghost from_gives = { λ _ e. e ≡ faults.ReadFault };

    fn from(_: Failed) -> Self {
        HistoryFault::ReadFault
    }
}

impl From<NoMemory> for HistoryFault {
    ghost from_gives = { λ _ e. e ≡ faults.NoMemory };

    fn from(_: NoMemory) -> Self {
        HistoryFault::NoMemory
    }
}
