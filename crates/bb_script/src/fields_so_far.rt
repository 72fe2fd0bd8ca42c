ghost use Rattle.std.specs.Prelude.{◌≡◌, IfOk};

use bb_base::{Bytes, NoMemory};
use std::alloc::{AllocError, AllocFailed, Global};

/// How many bytes the fields of a command's words, or of the words of a `for`, may have in all.
pub const EXPANSION_LIMIT: usize = 4_096;

/// What the names of a script's variables stand for.
pub trait ScriptVariables {
    ghost use Rattle.std.specs.Prelude.{List, ℕ};

    ghost value_of: { Self → List ℕ → List ℕ };

    /// The value of the variable of this name, empty where it isn't set.
    fn value(&self, alloc: Global, name: &[u8]) -> Result<Bytes, NoMemory>
        ensures { IfOk result (λ value. value ≡ value_of self.now name.now) };
}

/// Why an expansion stops.
#[derive(Clone, Copy, Debug)]
pub(crate) enum ExpansionStop {
    TooLong,
    NoMemory,
}

impl From<NoMemory> for ExpansionStop {
    ghost use Rattle.std.specs.Prelude.{◌≡◌};
    ghost use Rattle.bb_script.specs.declared.fields_so_far.ExpansionStop.{ExpansionStop};
    ghost use Rattle.bb_script.specs.declared.fields_so_far.ExpansionStop.TheVariants.{NoMemory};

    ghost from_gives = { λ _ e. e ≡ NoMemory };

    fn from(_: NoMemory) -> Self {
        ExpansionStop::NoMemory
    }
}

impl From<AllocError> for ExpansionStop {
    ghost use Rattle.std.specs.Prelude.{◌≡◌};
    ghost use Rattle.bb_script.specs.declared.fields_so_far.ExpansionStop.{ExpansionStop};
    ghost use Rattle.bb_script.specs.declared.fields_so_far.ExpansionStop.TheVariants.{NoMemory};

    ghost from_gives = { λ _ e. e ≡ NoMemory };

    fn from(_: AllocError) -> Self {
        ExpansionStop::NoMemory
    }
}

impl<T: Drop> From<AllocFailed<T>> for ExpansionStop {
    ghost use Rattle.std.specs.Prelude.{◌≡◌};
    ghost use Rattle.bb_script.specs.declared.fields_so_far.ExpansionStop.{ExpansionStop};
    ghost use Rattle.bb_script.specs.declared.fields_so_far.ExpansionStop.TheVariants.{NoMemory};

    ghost from_gives = { λ _ e. e ≡ NoMemory };

    fn from(_: AllocFailed<T>) -> Self {
        ExpansionStop::NoMemory
    }
}

/// Fields that are made.
#[derive(Debug, Drop)]
pub(crate) struct FieldsSoFar {
    pub done: Vec<Bytes>,
    /// The field to which characters are added.
    pub opened: Option<Bytes>,
    /// How many bytes all of them have.
    pub size: usize,
}
