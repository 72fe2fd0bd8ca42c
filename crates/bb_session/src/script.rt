ghost use Rattle.std.specs.Prelude.{◌≡◌};
ghost use Rattle.bb_state.specs.State.{keyed_of, used_of};
ghost use Rattle.bb_session.specs.Doing.{IsAtHand, IsDone};
ghost use Rattle.bb_session.specs.Scripting.{ReportsRun, status_refusal};
ghost use Rattle.bb_plan.specs.Plan.{IsServed};
ghost use Rattle.bb_plan.specs.declared.plan.Work.TheVariants.{Run};

use crate::report::Report;
use bb_base::Bytes;
use bb_chooser::{Cause, Chooser};
use bb_flash::{Board, PlanList};
use bb_plan::Refusal;
use bb_script::SpeltScript;
use bb_script_commands::{RunEnd, RunResult, ScriptCommands, run_script};
use bb_state::State;
use std::alloc::Global;

/// Runs a script from the table that was loaded on, and gives what is sent of it. Its boots are by
/// these plans and this cause.
pub(crate) fn run<B: Board>(
    alloc: Global,
    board: &mut B,
    state: State,
    script: &SpeltScript,
    chooser: Chooser,
    cause: Cause,
    plans: PlanList,
) -> Result<Report, Refusal>
    requires served { IsServed (keyed_of state) (Run script.now chooser cause plans) }
    requires hand { IsAtHand state (B.device board.old) }
    ensures did { IsDone (keyed_of state) (used_of state) state.table
        (Run script.now chooser cause plans) (B.device board.old) (B.device board.new) result }
{
    let commands = ScriptCommands::new(state, chooser, plans, cause);
    let ran = run_script(alloc, script.as_script(), commands, board);
    let RunResult { text, end, .. } = ran;
    report(text, end)
}

// What is sent of a script: its text stays before the line of a refusal, but where memory was
// refused.
fn report(text: Bytes, end: RunEnd) -> Result<Report, Refusal>
    ensures { ReportsRun text end result }
{
    match end {
        RunEnd::Done(status) => Ok(Report {
            text,
            refusal: status_refusal(status),
        }),
        RunEnd::Started => Ok(Report::done(text)),
        RunEnd::StepLimit => Ok(Report {
            text,
            refusal: Some(Refusal::StepLimit),
        }),
        RunEnd::Fault(fault) => Ok(Report {
            text,
            refusal: Some(Refusal::from(fault)),
        }),
        RunEnd::NoMemory => Err(Refusal::NoMemory),
    }
}

fn status_refusal(status: u32) -> Option<Refusal>
    ensures { result ≡ status_refusal status }
{
    if status == 0 {
        return None;
    }
    Some(Refusal::ScriptFailed(status))
}
