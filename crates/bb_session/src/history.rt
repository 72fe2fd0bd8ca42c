ghost use Rattle.std.specs.Prelude.{◌≡◌, IfOk};
ghost use Rattle.bb_flash.specs.Cuts.{IsLater};
ghost use Rattle.bb_plan.specs.declared.plan.Work.TheVariants.{History};
ghost use Rattle.bb_session.specs.Listing.{ReportsHistory};
ghost use Rattle.bb_session.specs.Work.{IsWorkedOut};
ghost use Rattle.bb_state.specs.Kinds.{laid_regions};
ghost use Rattle.bb_state.specs.State.{IsOn, keyed_of, laid_of};

use crate::report::Report;
use bb_base::{Bytes, NoMemory};
use bb_flash::{Flash, Region};
use bb_history::{HistoryFault, read_history};
use bb_plan::Refusal;
use bb_state::State;
use std::alloc::Global;

/// Reads what the regions of the copies still hold, and gives its text: all of it, or as much as
/// there was when a read failed, and then that line.
pub(crate) fn history<F: Flash>(
    alloc: Global,
    flash: &mut F,
    state: &State,
) -> Result<Report, Refusal>
    requires { IsOn state.now (F.device flash.old) }
    ensures gives { IsWorkedOut (keyed_of state.now) History
        (F.device flash.old) (F.device flash.new) result }
    ensures later { IsLater (F.device flash.old) (F.device flash.new) }
{
    let regions = regions_of(alloc, state)?;
    let mut text = Bytes::none(alloc);
    let layout = state.layout();
    let read = read_history(alloc, layout, state.format(), &regions, flash, &mut text);
    report(read, text)
}

// Where the copies stand, in their order.
fn regions_of(alloc: Global, state: &State) -> Result<Vec<Region>, NoMemory>
    ensures { IfOk result (λ regions. regions.items ≡ laid_regions (laid_of state.now)) }
{
    let layout = state.layout();
    let mut regions = Vec::new(alloc);
    for copy in 0..layout.copies {
        let Some(region) = state.region(copy) else {
            unreachable!()
        };
        regions.push(region)?;
    }
    Ok(regions)
}

// What is sent of a history that was read so, of which this is the text.
fn report(read: Result<(), HistoryFault>, text: Bytes) -> Result<Report, Refusal>
    ensures { ReportsHistory text read result }
{
    match read {
        Ok(()) => Ok(Report::done(text)),
        Err(HistoryFault::ReadFault) => Ok(Report {
            text,
            refusal: Some(Refusal::ReadFault),
        }),
        Err(HistoryFault::NoMemory) => Err(Refusal::NoMemory),
    }
}
