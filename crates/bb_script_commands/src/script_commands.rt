ghost use Rattle.std.specs.Prelude.{◌≡◌, None};
ghost use Rattle.bb_script_commands.specs.Held.{nothing_yet};

use crate::directions::Directions;
use crate::run_command::run_command;
use crate::so_far::SoFar;
use crate::state_name::below_layout;
use crate::variables::{set_value, value_text};
use crate::words::is_outside_name;
use bb_base::{Bytes, NoMemory};
use bb_chooser::{Cause, Chooser};
use bb_flash::{Board, PlanList};
use bb_interpreter::{Commands, Reply, SetReply};
use bb_state::{CopyFault, State};
use std::alloc::Global;
use std::marker::{Model, PhantomData};

/// A state, with what a script may do to it and by it on a board.
#[derive(Drop)]
pub struct ScriptCommands<B> {
    state: State,
    by: Directions,
    so_far: SoFar,
    board: PhantomData<B>,
}

impl<B> Model for ScriptCommands<B> {
    ghost use Rattle.bb_script_commands.specs.Held.{Held, held_of};

    ghost Value = { Held };

    ghost view = { λ c. held_of c.state c.by c.so_far };
}

impl<B> ScriptCommands<B> {
    /// Before any command. The state was loaded, and the chooser bound to its layout; a start is by
    /// the plan of its target.
    pub fn new(state: State, chooser: Chooser, plans: PlanList, cause: Cause) -> ScriptCommands<B>
        ensures { result ≡ record {
          table = state.table;
          backed = state.backing;
          by = record { chooser = chooser; plans = plans; cause = cause };
          so_far = nothing_yet;
        } }
    {
        ScriptCommands {
            state,
            by: Directions {
                chooser,
                plans,
                cause,
            },
            so_far: SoFar {
                booted: false,
                fault: None,
            },
            board: PhantomData,
        }
    }

    /// The fault of the device that ended a command, if one did.
    pub fn fault(&self) -> Option<CopyFault>
        ensures { result ≡ self.now.so_far.fault }
    {
        self.so_far.fault
    }

    /// The state, as the commands left it.
    pub fn into_state(self) -> State
        ensures table { result.table ≡ self.table }
        ensures backing { result.backing ≡ self.backed }
    {
        let ScriptCommands { state, .. } = self;
        state
    }
}

impl<B: Board> Commands for ScriptCommands<B> {
    ghost use Rattle.bb_script_commands.specs.Held.{CanCall};
    ghost use Rattle.bb_script_commands.specs.Scripts.{calls_on};
    ghost use Rattle.bb_script_commands.specs.StateNames.{state_outside};

    type Device = B;

    ghost outside = { state_outside };

    ghost can_call = { λ held board. CanCall held (B.device board) };

    ghost call_gives = { calls_on B.device };

    fn value(&self, alloc: Global, name: &[u8]) -> Result<Option<Bytes>, NoMemory> {
        let Some(own) = below_layout(self.state.layout().name.as_str(), name) else {
            return Ok(None);
        };
        let text = value_text(alloc, &self.state, own)?;
        Ok(Some(text))
    }

    fn set(&mut self, _: Global, name: &[u8], value: &[u8]) -> Result<SetReply, NoMemory> {
        let Some(own) = below_layout(self.state.layout().name.as_str(), name) else {
            return Ok(SetReply::Unknown);
        };
        if set_value(&mut self.state, own, value) {
            return Ok(SetReply::Set);
        }
        Ok(SetReply::Refused)
    }

    fn has_command(&self, name: &[u8]) -> bool {
        is_outside_name(name)
    }

    fn call(&mut self, alloc: Global, words: &[Bytes], device: &mut B) -> Reply {
        run_command(
            alloc,
            words,
            &mut self.state,
            &self.by,
            &mut self.so_far,
            device,
        )
    }
}
