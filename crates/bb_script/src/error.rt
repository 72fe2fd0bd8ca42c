use bb_base::NoMemory;
use std::alloc::{AllocError, AllocFailed};
use thiserror::Error;

/// Why a text is no script. The length is looked at first, then UTF-8, and then the text from its
/// front on: the first offset decides, in bytes from 0. `Unclosed` counts as standing at the text's
/// end there, whatever offset it shows.
#[derive(Clone, Copy, Debug, PartialEq, Eq, Error)]
pub enum ScriptError {
    /// More than 65,536 bytes.
    #[error("a script of more than 65536 bytes")]
    TooLong,
    /// The text isn't UTF-8.
    #[error("a script that is no UTF-8")]
    NotText,
    /// The text ends inside of quotes, an `if` or a `for`. The innermost of these begins here.
    #[error("never closed, at {0}")]
    Unclosed(usize),
    /// A word, a keyword, a separator or the text's end in a wrong place, a character that the
    /// language doesn't have, or a `${` without a name and a `}`.
    #[error("unexpected at {0}")]
    Unexpected(usize),
    /// The `if` or `for` that is the 17th of those that are open.
    #[error("too deep at {0}")]
    TooDeep(usize),
    /// An allocation was refused. This says nothing of the text.
    #[error("out of memory")]
    NoMemory,
}

impl From<NoMemory> for ScriptError {
    ghost use Rattle.std.specs.Prelude.{◌≡◌};
    ghost use Rattle.bb_script.specs.declared.error.ScriptError.{ScriptError};
    ghost use Rattle.bb_script.specs.declared.error.ScriptError.TheVariants.{NoMemory};

    ghost from_gives = { λ _ e. e ≡ NoMemory };

    fn from(_: NoMemory) -> Self {
        ScriptError::NoMemory
    }
}

impl From<AllocError> for ScriptError {
    ghost use Rattle.std.specs.Prelude.{◌≡◌};
    ghost use Rattle.bb_script.specs.declared.error.ScriptError.{ScriptError};
    ghost use Rattle.bb_script.specs.declared.error.ScriptError.TheVariants.{NoMemory};

    ghost from_gives = { λ _ e. e ≡ NoMemory };

    fn from(_: AllocError) -> Self {
        ScriptError::NoMemory
    }
}

impl<T: Drop> From<AllocFailed<T>> for ScriptError {
    ghost use Rattle.std.specs.Prelude.{◌≡◌};
    ghost use Rattle.bb_script.specs.declared.error.ScriptError.{ScriptError};
    ghost use Rattle.bb_script.specs.declared.error.ScriptError.TheVariants.{NoMemory};

    ghost from_gives = { λ _ e. e ≡ NoMemory };

    fn from(_: AllocFailed<T>) -> Self {
        ScriptError::NoMemory
    }
}
