ghost use Rattle.std.specs.Prelude.{◌≡◌};

use bb_base::NoMemory;

/// Why a draft was refused.
#[derive(Clone, Copy, Debug, PartialEq, Eq)]
pub enum TreeError {
    /// The label names another path.
    DuplicateLabel,
    /// Two nodes have one phandle.
    DuplicatePhandle,
    /// A reference whose label names no node, with its offset in the text.
    NoSuchLabel(usize),
    /// An allocation was refused.
    NoMemory,
}

impl From<NoMemory> for TreeError {
    ghost use Rattle.bb_tree.specs.declared.tree_error.TreeError.{TreeError};
    ghost use Rattle.bb_tree.specs.declared.tree_error.TreeError.TheVariants.{NoMemory};

    ghost from_gives = { λ _ e. e ≡ NoMemory };

    fn from(_: NoMemory) -> Self {
        TreeError::NoMemory
    }
}
