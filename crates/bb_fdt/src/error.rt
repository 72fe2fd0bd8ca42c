use bb_base::NoMemory;
use std::alloc::AllocError;
use thiserror::Error;

/// A part of a blob that its header gives the bounds of.
#[derive(Clone, Copy, Debug, PartialEq, Eq)]
pub enum Field {
    /// The whole blob.
    Total,
    /// The structure block.
    Struct,
    /// The strings block.
    Strings,
    /// The reservation list.
    Reserve,
}

/// Why bytes are no blob. An offset is one in the blob, in bytes from 0: that at which the first
/// token that breaks a rule begins.
#[derive(Clone, Copy, Debug, PartialEq, Eq, Error)]
pub enum FdtError {
    /// Fewer than 40 bytes, or another magic than 0xD00DFEED.
    #[error("no blob")]
    NotBlob,
    /// A version below 17, or one that a reader of version 17 can't read.
    #[error("another version")]
    Version,
    /// A part of the blob isn't inside of it, or isn't aligned.
    #[error("{0:?} out of bounds")]
    OutOfBounds(Field),
    /// A token that isn't allowed here, or one that the structure block ends within.
    #[error("bad token at {0}")]
    BadToken(usize),
    /// The name of a node other than the root, or of a property: it is empty, has a byte outside
    /// 0x21 to 0x7E, or isn't in the strings block.
    #[error("bad name at {0}")]
    BadName(usize),
    /// A node at level 33. The root's level is 1.
    #[error("too deep at {0}")]
    TooDeep(usize),
    /// An allocation was refused. This says nothing of the bytes.
    #[error("out of memory")]
    NoMemory,
}

impl From<NoMemory> for FdtError {
    ghost use Rattle.std.specs.Prelude.{◌≡◌};
    ghost use Rattle.bb_fdt.specs.declared.error.FdtError.{FdtError};
    ghost use Rattle.bb_fdt.specs.declared.error.FdtError.TheVariants.{NoMemory};

    ghost from_gives = { λ _ e. e ≡ NoMemory };

    fn from(_: NoMemory) -> Self {
        FdtError::NoMemory
    }
}

impl From<AllocError> for FdtError {
    ghost use Rattle.std.specs.Prelude.{◌≡◌};
    ghost use Rattle.bb_fdt.specs.declared.error.FdtError.{FdtError};
    ghost use Rattle.bb_fdt.specs.declared.error.FdtError.TheVariants.{NoMemory};

    ghost from_gives = { λ _ e. e ≡ NoMemory };

    fn from(_: AllocError) -> Self {
        FdtError::NoMemory
    }
}
