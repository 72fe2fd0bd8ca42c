use bb_base::{NoMemory, Text};
use bb_state::StateError;

/// Why actions can't be bound to the variables of a layout.
#[derive(Debug, Drop)]
pub enum ActionError {
    /// The layout has no variable of this name, or a text is no value of it.
    Misfit(Text, StateError),
    /// An allocation was refused. This says nothing of the actions.
    NoMemory,
}

impl From<NoMemory> for ActionError {
    ghost use Rattle.std.specs.Prelude.{◌≡◌};
    ghost use Rattle.bb_actions.specs.declared.error.ActionError.TheVariants.{NoMemory};

    ghost from_gives = { λ _ e. e ≡ NoMemory };

    fn from(_: NoMemory) -> Self {
        ActionError::NoMemory
    }
}
