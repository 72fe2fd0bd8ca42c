ghost use Rattle.std.specs.Prelude.{◌≡◌, Some, false, true, not};
ghost use Rattle.bb_chooser.specs.Choosing.{IsBest};
ghost use Rattle.bb_copies.specs.Loading.{KeepsOutside};
ghost use Rattle.bb_flash.specs.Cuts.{IsLater};
ghost use Rattle.bb_flash.specs.Device.{IsDevice};
ghost use Rattle.bb_shell.specs.Boot.{IsOutcome, IsRound, plan_at};
ghost use Rattle.bb_shell.specs.Ends.{AddsStart, IsReady, RaisedBy, StaysStored};
ghost use Rattle.bb_shell.specs.Ends.{failed_start};
ghost use Rattle.bb_shell.specs.Running.{IsRoundRun, IsTried, is_refused_save};
ghost use Rattle.bb_state.specs.State.{IsOn, is_sure, last_table_of, keyed_of};
ghost use Rattle.bb_state.specs.State.{kinds_of, used_of};

use crate::outcome::Outcome;
use bb_chooser::Chooser;
use bb_flash::{Board, PlanList};
use bb_state::State;

/// One round: spends an attempt of the target, which is the best, saves that, and starts the target
/// by its plan.
pub(crate) fn run_round<B: Board>(
    state: &mut State,
    chooser: &Chooser,
    plans: &PlanList,
    target: usize,
    board: &mut B,
) -> Outcome
    requires ready { IsReady chooser.now state.old (B.device board.old) }
    requires best { IsBest chooser.now state.old.table target }
    ensures round { IsRound chooser.now plans.now state.old.table
        (record { target = target; table = state.new.table; outcome = result }) }
    ensures run { IsRoundRun (keyed_of state.old) plans.now (Some (last_table_of state.old))
        (used_of state.old) (used_of state.new)
        (record { target = target; table = state.new.table; outcome = result })
        (B.device board.old) (B.device board.new) }
    ensures starts { AddsStart (plan_at plans.now target) result
        (B.device board.old) (B.device board.new) }
    ensures start_faults { RaisedBy (failed_start result)
        (B.device board.old).start_faults (B.device board.new).start_faults }
    ensures stored { is_refused_save result ≡ false
        → StaysStored (keyed_of state.old) (Some (last_table_of state.old))
        (Some state.new.table)
        (B.device board.old) (B.device board.new) }
    ensures outside { KeepsOutside (kinds_of state.old) (B.device board.old) (B.device board.new) }
    ensures later { IsLater (B.device board.old) (B.device board.new) }
    ensures keyed { keyed_of state.new ≡ keyed_of state.old }
    ensures kept { is_sure state.new ≡ true → last_table_of state.new ≡ state.new.table }
    ensures sure { is_sure state.new ≡ not (is_refused_save result) }
    ensures on { IsOn state.new (B.device board.new) }
{
    chooser.spend(&mut state.table, target);
    match state.save(board) {
        Ok(()) => try_start(plans, target, board),
        Err(fault) => Outcome::Refused(fault),
    }
}

// Starts a target by its plan, where it has one.
fn try_start<B: Board>(plans: &PlanList, target: usize, board: &mut B) -> Outcome
    requires { IsDevice (B.device board.old) }
    ensures outcome { IsOutcome (plan_at plans.now target) result }
    ensures tried { IsTried (plan_at plans.now target) result
        (B.device board.old) (B.device board.new) }
    ensures saved { is_refused_save result ≡ false }
    ensures whole { IsDevice (B.device board.new) }
{
    let Some(Some(plan)) = plans.get(target) else {
        return Outcome::Unplanned;
    };
    match board.start(plan) {
        Ok(()) => Outcome::Started,
        Err(_) => Outcome::Failed,
    }
}
