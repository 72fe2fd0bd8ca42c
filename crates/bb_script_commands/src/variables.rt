ghost use Rattle.std.specs.Prelude.{◌≡◌, IfOk, Some, None, false, if◌then◌else◌};
ghost use Rattle.bb_state.specs.State.{laid_of};
ghost use Rattle.bb_script_commands.specs.StateNames.{table_set, value_text};

use bb_base::{Bytes, NoMemory};
use bb_state::{State, StateError};
use std::alloc::Global;
use std::str;

/// The text of the value of a state's variable, or nothing where it has none of this name.
pub(crate) fn value_text(alloc: Global, state: &State, name: &[u8]) -> Result<Bytes, NoMemory>
    ensures { IfOk result (λ text. text
        ≡ value_text (laid_of state.now).vars state.now.table name.now) }
{
    let mut text = Bytes::none(alloc);
    let Ok(name) = str::from_utf8(name) else {
        return Ok(text);
    };
    match state.get(name, &mut text) {
        Ok(()) => Ok(text),
        Err(StateError::NoMemory) => Err(NoMemory),
        Err(_) => Ok(text),
    }
}

/// Sets a state's variable. False where it has none of this name, or the text is no value of it:
/// the table is then as before.
pub(crate) fn set_value(state: &mut State, name: &[u8], text: &[u8]) -> bool
    ensures set { (if result then Some state.new.table else None)
        ≡ table_set (laid_of state.old).vars state.old.table name.now text.now }
    ensures unchanged { result ≡ false → state.new.table ≡ state.old.table }
    ensures backing { state.new.backing ≡ state.old.backing }
{
    let Ok(name) = str::from_utf8(name) else {
        return false;
    };
    state.set(name, text).is_ok()
}
