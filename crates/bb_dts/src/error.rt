use bb_base::NoMemory;
use std::alloc::AllocError;
use thiserror::Error;

/// Why a text is no source of a tree. All but `NoMemory` have an offset in the text, in bytes from
/// 0: that at which the first token that breaks a rule begins.
#[derive(Clone, Copy, Debug, PartialEq, Eq, Error)]
pub enum DtsError {
    /// The text isn't UTF-8. Here the first sequence that is ill-formed begins.
    #[error("not UTF-8 at {0}")]
    NotText(usize),
    /// No token begins here, or a comment, a string, an escape, a number or a byte is malformed.
    #[error("bad token at {0}")]
    BadToken(usize),
    /// The grammar has no such token here. The end of the text is a token too.
    #[error("unexpected token at {0}")]
    Unexpected(usize),
    /// A number doesn't fit: a cell has 32 bits, a reserve's address and length have 64 each.
    #[error("number too large at {0}")]
    NumberTooLarge(usize),
    /// A part of the language that is left out: `/include/`, `/delete-node/`, an expression and the
    /// like.
    #[error("left out of the language at {0}")]
    LeftOut(usize),
    /// The `{` of a node at level 33. The root's level is 1.
    #[error("too deep at {0}")]
    TooDeep(usize),
    /// A node's label names another node already.
    #[error("label of another node at {0}")]
    DuplicateLabel(usize),
    /// Two nodes have one phandle. The offset is the text's length.
    #[error("two nodes with one phandle at {0}")]
    DuplicatePhandle(usize),
    /// A reference whose label names no node.
    #[error("no such label at {0}")]
    NoSuchLabel(usize),
    /// An allocation was refused. This says nothing of the text.
    #[error("out of memory")]
    NoMemory,
}

impl From<NoMemory> for DtsError {
    ghost use Rattle.std.specs.Prelude.{◌≡◌};
    ghost use Rattle.bb_dts.specs.declared.error.DtsError.{DtsError};
    ghost use Rattle.bb_dts.specs.declared.error.DtsError.TheVariants.{NoMemory};

    ghost from_gives = { λ _ e. e ≡ NoMemory };

    fn from(_: NoMemory) -> Self {
        DtsError::NoMemory
    }
}

impl From<AllocError> for DtsError {
    ghost use Rattle.std.specs.Prelude.{◌≡◌};
    ghost use Rattle.bb_dts.specs.declared.error.DtsError.{DtsError};
    ghost use Rattle.bb_dts.specs.declared.error.DtsError.TheVariants.{NoMemory};

    ghost from_gives = { λ _ e. e ≡ NoMemory };

    fn from(_: AllocError) -> Self {
        DtsError::NoMemory
    }
}
