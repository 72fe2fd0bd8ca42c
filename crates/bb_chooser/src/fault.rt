use crate::SettingsError;
use bb_base::NoMemory;

/// Why a line is no setting.
#[derive(Clone, Copy, Debug, PartialEq, Eq)]
pub(crate) enum Fault {
    BadLine,
    TargetTwice,
    BadNumber,
    BadEvent,
    NoMemory,
}

impl From<NoMemory> for Fault {
    ghost use Rattle.std.specs.Prelude.{◌≡◌};
    ghost use Rattle.bb_chooser.specs.declared.fault.Fault.{Fault};
    ghost use Rattle.bb_chooser.specs.declared.fault.Fault.TheVariants.{NoMemory};

    ghost from_gives = { λ _ e. e ≡ NoMemory };

    fn from(_: NoMemory) -> Self {
        Fault::NoMemory
    }
}

impl Fault {
    ghost use Rattle.std.specs.Prelude.{◌≡◌};
    ghost use Rattle.bb_chooser.specs.Lines.{fault_at};

    /// The refusal of settings in which this line, from 1, is the first that is bad.
    pub(crate) fn at(self, line: usize) -> SettingsError
        ensures { result ≡ fault_at line self }
    {
        match self {
            Fault::BadLine => SettingsError::BadLine(line),
            Fault::TargetTwice => SettingsError::TargetTwice(line),
            Fault::BadNumber => SettingsError::BadNumber(line),
            Fault::BadEvent => SettingsError::BadEvent(line),
            Fault::NoMemory => SettingsError::NoMemory,
        }
    }
}
