ghost use Rattle.std.specs.Prelude.{◌≡◌, true};
ghost use Rattle.bb_interpreter.specs.Outside.{is_done_reply};
ghost use Rattle.bb_script_commands.specs.Calling.{HasCalled, HasCalledOne};
ghost use Rattle.bb_script_commands.specs.Held.{CanCall, held_of};
ghost use Rattle.bb_script_commands.specs.declared.words.OutsideCommand.TheVariants.{Misused, Show};

use crate::boot::boot;
use crate::directions::Directions;
use crate::save::{mark_good, save_table};
use crate::show::counts_lines;
use crate::so_far::SoFar;
use crate::words::{OutsideCommand, outside_command};
use bb_base::Bytes;
use bb_flash::Board;
use bb_interpreter::Reply;
use bb_state::State;
use std::alloc::Global;

/// Runs the command that these words say.
pub(crate) fn run_command<B: Board>(
    alloc: Global,
    words: &[Bytes],
    state: &mut State,
    by: &Directions,
    so_far: &mut SoFar,
    board: &mut B,
) -> Reply
    requires { CanCall (held_of state.old by.now so_far.old) (B.device board.old) }
    ensures gives { HasCalled words.now (held_of state.old by.now so_far.old) (B.device board.old)
        result (held_of state.new by.now so_far.new) (B.device board.new) }
    ensures ready { is_done_reply result ≡ true
        → CanCall (held_of state.new by.now so_far.new) (B.device board.new) }
{
    match outside_command(words) {
        OutsideCommand::Save => save_table(alloc, state, by, so_far, board),
        OutsideCommand::MarkGood => mark_good(alloc, state, by, so_far, board),
        OutsideCommand::Show => show(alloc, state, by, so_far, board),
        OutsideCommand::Boot => boot(alloc, state, by, so_far, board),
        OutsideCommand::Misused => Reply::Done(2, Bytes::none(alloc)),
    }
}

// Sends a line of each target.
fn show<B: Board>(alloc: Global, state: &State, by: &Directions, so_far: &SoFar, board: &B) -> Reply
    requires { CanCall (held_of state.now by.now so_far.now) (B.device board.now) }
    ensures { HasCalledOne Show (held_of state.now by.now so_far.now) (B.device board.now) result
        (held_of state.now by.now so_far.now) (B.device board.now) }
{
    match counts_lines(alloc, &by.chooser, &state.table) {
        Ok(text) => Reply::Done(0, text),
        Err(_) => Reply::NoMemory,
    }
}
