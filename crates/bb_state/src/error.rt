ghost use Rattle.std.specs.Prelude.{◌≡◌};
ghost use Rattle.bb_state.specs.declared.error.StateError.TheVariants as states;

use bb_base::NoMemory;
use bb_vars::ValueError;
use thiserror::Error;

/// Why a variable can't be got or set.
#[derive(Clone, Copy, Debug, PartialEq, Eq, Error)]
pub enum StateError {
    /// No variable has the name.
    #[error("no such variable")]
    NoSuchVariable,
    /// The text is no value of the variable's kind.
    #[error("{0}")]
    Value(ValueError),
    /// An allocation was refused.
    #[error("out of memory")]
    NoMemory,
}

impl From<ValueError> for StateError {
    ghost from_gives = { λ cause e. e ≡ states.Value cause };

    fn from(cause: ValueError) -> StateError {
        StateError::Value(cause)
    }
}

impl From<NoMemory> for StateError {
    ghost from_gives = { λ _ e. e ≡ states.NoMemory };

    fn from(_: NoMemory) -> StateError {
        StateError::NoMemory
    }
}
