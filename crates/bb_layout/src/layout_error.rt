ghost use Rattle.std.specs.Prelude.{◌≡◌};

use bb_base::{NoMemory, Text};
use std::alloc::Global;

/// Why a devicetree gives no layout.
#[derive(Debug, Drop)]
pub enum LayoutError {
    /// No node is the state node.
    NoState,
    /// A property that must be there isn't, with its name.
    Missing(Text),
    /// A property's value isn't of its form, with the property's name.
    BadProp(Text),
    /// A variable's `type` is none of the five.
    BadType,
    /// A variable's `reg` isn't an offset and a size that fit its type.
    BadReg,
    /// Two variables share a byte.
    Overlap,
    /// `backend` leads to no partition.
    NoBackend,
    /// Fewer than two copies fit, or a record doesn't.
    TooSmall,
    /// The partition isn't aligned to erase blocks.
    Unaligned,
    /// The partition reaches past the device.
    OutOfDevice,
    /// The variables take more than 65,535 bytes.
    AreaTooLong,
    /// Two variables have one name.
    NameTwice,
    /// An allocation was refused.
    NoMemory,
}

impl From<NoMemory> for LayoutError {
    ghost use Rattle.bb_layout.specs.declared.layout_error.LayoutError.{LayoutError};
    ghost use Rattle.bb_layout.specs.declared.layout_error.LayoutError.TheVariants.{NoMemory};

    ghost from_gives = { λ _ e. e ≡ NoMemory };

    fn from(_: NoMemory) -> Self {
        LayoutError::NoMemory
    }
}

impl LayoutError {
    ghost use Rattle.std.specs.Prelude.{◌≢◌};

    /// A property that isn't there; or memory was refused for its name.
    pub(crate) fn missing(alloc: Global, name: &str) -> LayoutError
        ensures { result ≢ LayoutError.NoMemory → result ≡ LayoutError.Missing name.now }
    {
        match Text::of(alloc, name) {
            Ok(name) => LayoutError::Missing(name),
            Err(_) => LayoutError::NoMemory,
        }
    }

    /// A property whose value isn't of its form; or memory was refused for its name.
    pub(crate) fn bad_prop(alloc: Global, name: &str) -> LayoutError
        ensures { result ≢ LayoutError.NoMemory → result ≡ LayoutError.BadProp name.now }
    {
        match Text::of(alloc, name) {
            Ok(name) => LayoutError::BadProp(name),
            Err(_) => LayoutError::NoMemory,
        }
    }
}
