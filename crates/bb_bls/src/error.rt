use bb_base::NoMemory;
use thiserror::Error;

/// Why a text is no boot entry. The first that holds is answered, in this order.
#[derive(Clone, Copy, Debug, PartialEq, Eq, Error)]
pub enum EntryError {
    /// It has more than 65,536 bytes.
    #[error("an entry of more than 65536 bytes")]
    TooLong,
    /// It isn't UTF-8.
    #[error("an entry that is no UTF-8")]
    NotText,
    /// No line has the key `linux` and a value.
    #[error("an entry without a kernel")]
    NoLinux,
    /// An allocation was refused.
    #[error("out of memory")]
    NoMemory,
}

impl From<NoMemory> for EntryError {
    ghost use Rattle.std.specs.Prelude.{◌≡◌};
    ghost use Rattle.bb_bls.specs.declared.error.EntryError.{EntryError};
    ghost use Rattle.bb_bls.specs.declared.error.EntryError.TheVariants.{NoMemory};

    ghost from_gives = { λ _ e. e ≡ NoMemory };

    fn from(_: NoMemory) -> Self {
        EntryError::NoMemory
    }
}
