use bb_base::NoMemory;
use thiserror::Error;

/// Why there is no menu of a folder. The first that is met is answered.
#[derive(Clone, Copy, Debug, PartialEq, Eq, Error)]
pub enum MenuFault {
    /// There is no such folder.
    #[error("no such folder")]
    NoFolder,
    /// Listing the folder, or reading a file of it, met a fault.
    #[error("a file that can't be read")]
    FileFault,
    /// An entry's file has more than 1,048,576 bytes.
    #[error("a file of more than 1048576 bytes")]
    FileTooLong,
    /// An allocation was refused.
    #[error("out of memory")]
    NoMemory,
}

impl From<NoMemory> for MenuFault {
    ghost use Rattle.std.specs.Prelude.{◌≡◌};
    ghost use Rattle.bb_menu.specs.declared.fault.MenuFault.{MenuFault};
    ghost use Rattle.bb_menu.specs.declared.fault.MenuFault.TheVariants.{NoMemory};

    ghost from_gives = { λ _ e. e ≡ NoMemory };

    fn from(_: NoMemory) -> Self {
        MenuFault::NoMemory
    }
}
