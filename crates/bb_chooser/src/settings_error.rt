use bb_base::{NoMemory, Text};
use std::alloc::Global;

/// Why settings can't be read or bound. A line counts from 1, and the first that is bad decides.
#[derive(Debug, Drop)]
pub enum SettingsError {
    /// This line isn't UTF-8, has another form or key, or names a target, a prefix or a file that
    /// can't be.
    BadLine(usize),
    /// No line names a target.
    NoTargets,
    /// This line names a target twice.
    TargetTwice(usize),
    /// This line's value isn't a number, or not 0 or 1.
    BadNumber(usize),
    /// This line's value has an event that isn't known.
    BadEvent(usize),
    /// The layout has no variable of this name, which begins with the prefix.
    NoSuchVariable(Text),
    /// The variable of this name, which begins with the prefix, isn't a uint32.
    NotUint32(Text),
    /// An allocation was refused.
    NoMemory,
}

impl From<NoMemory> for SettingsError {
    ghost use Rattle.std.specs.Prelude.{◌≡◌};
    ghost use Rattle.bb_chooser.specs.declared.settings_error.SettingsError.{SettingsError};
    ghost use Rattle.bb_chooser.specs.declared.settings_error.SettingsError.TheVariants.{NoMemory};

    ghost from_gives = { λ _ e. e ≡ NoMemory };

    fn from(_: NoMemory) -> Self {
        SettingsError::NoMemory
    }
}

impl SettingsError {
    ghost use Rattle.std.specs.Prelude.{◌≡◌, ◌≢◌};

    /// A variable that isn't there; or memory was refused for its name.
    pub(crate) fn no_such_variable(alloc: Global, name: &str) -> SettingsError
        ensures { result ≢ SettingsError.NoMemory → result ≡ SettingsError.NoSuchVariable name.now }
    {
        match Text::of(alloc, name) {
            Ok(name) => SettingsError::NoSuchVariable(name),
            Err(_) => SettingsError::NoMemory,
        }
    }

    /// A variable that isn't a uint32; or memory was refused for its name.
    pub(crate) fn not_uint32(alloc: Global, name: &str) -> SettingsError
        ensures { result ≢ SettingsError.NoMemory → result ≡ SettingsError.NotUint32 name.now }
    {
        match Text::of(alloc, name) {
            Ok(name) => SettingsError::NotUint32(name),
            Err(_) => SettingsError::NoMemory,
        }
    }
}
