ghost use Rattle.std.specs.Prelude.{◌≡◌, IfOk};
ghost use Rattle.bb_state.specs.State.{keyed_of, used_of};
ghost use Rattle.bb_session.specs.Booting.{start_line, target_name, tries_line};
ghost use Rattle.bb_session.specs.Doing.{IsAtHand, IsDone};
ghost use Rattle.bb_plan.specs.Plan.{IsServed};
ghost use Rattle.bb_plan.specs.declared.plan.Work.TheVariants.{Boot};
ghost use Rattle.bb_session.specs.Work.{IsReportOf};

use crate::report::Report;
use bb_base::{AREA_LIMIT, Bytes, NoMemory, Text};
use bb_chooser::{Cause, Chooser};
use bb_flash::{Board, PlanList};
use bb_plan::Refusal;
use bb_shell::{BootEnd, boot_run};
use bb_state::State;
use std::alloc::Global;

/// Boots by the plans from the table that was loaded, and gives what is sent of the boot's end.
pub(crate) fn boot<B: Board>(
    alloc: Global,
    board: &mut B,
    state: &mut State,
    chooser: &Chooser,
    plans: &PlanList,
    cause: Cause,
) -> Result<Report, Refusal>
    requires served { IsServed (keyed_of state.old) (Boot chooser.now cause plans.now) }
    requires hand { IsAtHand state.old (B.device board.old) }
    ensures did { IsDone (keyed_of state.old) (used_of state.old) state.old.table
        (Boot chooser.now cause plans.now) (B.device board.old) (B.device board.new) result }
{
    prove!(chooser.count() <= AREA_LIMIT as usize);
    let end = boot_run(state, chooser, plans, cause, true, board);
    report(alloc, chooser, end)
}

// What is sent of the end of a boot.
fn report(alloc: Global, chooser: &Chooser, end: BootEnd) -> Result<Report, Refusal>
    ensures gives { IsReportOf chooser.now end result }
{
    match end {
        BootEnd::Started {
            target,
            left,
            tries,
        } => {
            let name = target_name(chooser, target);
            Ok(Report::done(start_line(alloc, name, left, tries)?))
        }
        BootEnd::NoTarget => Err(Refusal::NoTarget),
        BootEnd::StartFailed { target, tries } => {
            let text = tries_line(alloc, tries)?;
            let name = Text::of(alloc, target_name(chooser, target))?;
            Ok(Report {
                text,
                refusal: Some(Refusal::StartFailed(name)),
            })
        }
        BootEnd::Fault(fault) => Err(Refusal::from(fault)),
    }
}

fn target_name(chooser: &Chooser, target: u32) -> &str
    ensures { result.now ≡ target_name chooser.now target }
{
    match chooser.name(target as usize) {
        Some(name) => name.as_str(),
        None => "",
    }
}

fn start_line(alloc: Global, name: &str, left: u32, tries: u64) -> Result<Bytes, NoMemory>
    ensures { IfOk result (λ line. line ≡ start_line name.now left tries) }
{
    let mut line = Bytes::none(alloc);
    let words = format!(in alloc; "start {name} left {left} tries {tries}\n")?;
    line.add(words.as_bytes())?;
    Ok(line)
}

fn tries_line(alloc: Global, tries: u64) -> Result<Bytes, NoMemory>
    ensures { IfOk result (λ line. line ≡ tries_line tries) }
{
    let mut line = Bytes::none(alloc);
    let words = format!(in alloc; "tries {tries}\n")?;
    line.add(words.as_bytes())?;
    Ok(line)
}
