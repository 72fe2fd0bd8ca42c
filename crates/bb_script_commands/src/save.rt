ghost use Rattle.std.specs.Prelude.{◌≡◌, ◌↔◌, IsSome, IsTrue};
ghost use Rattle.bb_chooser.specs.Binding.{IsBoundTo};
ghost use Rattle.bb_chooser.specs.Counting.{chosen_target, mark_good_of};
ghost use Rattle.bb_state.specs.State.{laid_of};
ghost use Rattle.bb_shell.specs.Ends.{IsBoundIn};
ghost use Rattle.bb_script_commands.specs.Calling.{HasCalledOne};
ghost use Rattle.bb_script_commands.specs.Held.{CanCall, held_of};
ghost use Rattle.bb_script_commands.specs.declared.words.OutsideCommand.TheVariants.{MarkGood};
ghost use Rattle.bb_script_commands.specs.declared.words.OutsideCommand.TheVariants.{Save};

use crate::directions::Directions;
use crate::so_far::SoFar;
use bb_base::Bytes;
use bb_chooser::Chooser;
use bb_flash::Board;
use bb_interpreter::Reply;
use bb_state::State;
use std::alloc::Global;

/// Saves the table, where it is another than the one that was last loaded or saved.
pub(crate) fn save_table<B: Board>(
    alloc: Global,
    state: &mut State,
    by: &Directions,
    so_far: &mut SoFar,
    board: &mut B,
) -> Reply
    requires { CanCall (held_of state.old by.now so_far.old) (B.device board.old) }
    ensures { HasCalledOne Save (held_of state.old by.now so_far.old) (B.device board.old) result
        (held_of state.new by.now so_far.new) (B.device board.new) }
{
    match state.save(board) {
        Ok(()) => Reply::Done(0, Bytes::none(alloc)),
        Err(fault) => {
            so_far.fault = Some(fault);
            Reply::Fault
        }
    }
}

/// Gives the target that was chosen last its default attempts, and saves that.
pub(crate) fn mark_good<B: Board>(
    alloc: Global,
    state: &mut State,
    by: &Directions,
    so_far: &mut SoFar,
    board: &mut B,
) -> Reply
    requires { CanCall (held_of state.old by.now so_far.old) (B.device board.old) }
    ensures { HasCalledOne MarkGood (held_of state.old by.now so_far.old) (B.device board.old)
        result (held_of state.new by.now so_far.new) (B.device board.new) }
{
    if !mark_table(state, &by.chooser) {
        return Reply::Done(1, Bytes::none(alloc));
    }
    save_table(alloc, state, by, so_far, board)
}

// Gives that target its default attempts in the table alone.
fn mark_table(state: &mut State, chooser: &Chooser) -> bool
    requires { IsBoundIn chooser.now (laid_of state.old) }
    ensures good { IsTrue result ↔ IsSome (chosen_target chooser.now state.old.table) }
    ensures marked { state.new.table ≡ mark_good_of chooser.now state.old.table }
    ensures backing { state.new.backing ≡ state.old.backing }
{
    chooser.mark_good(&mut state.table)
}
