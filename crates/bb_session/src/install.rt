ghost use Rattle.std.specs.Prelude.{◌≡◌, IfOk, length};
ghost use Rattle.bb_plan.specs.Plan.{IsServed};
ghost use Rattle.bb_plan.specs.declared.plan.Work.TheVariants.{Install};
ghost use Rattle.bb_plan.specs.declared.refusal.Refusal.TheVariants as refusals;
ghost use Rattle.bb_session.specs.Doing.{IsAtHand, IsDone, IsEndTold};
ghost use Rattle.bb_session.specs.Installing.{installed_name, installed_text};
ghost use Rattle.bb_state.specs.State.{keyed_of, used_of};

use crate::report::Report;
use bb_base::{Bytes, NoMemory, Text};
use bb_chooser::Chooser;
use bb_flash::Flash;
use bb_install::InstallEnd;
use bb_plan::{Refusal, SlotImage};
use bb_state::State;
use std::alloc::Global;

/// Installs an image over the table that was loaded, and gives what is sent of the end. `page` is
/// as long as the device's page. Memory is taken for what is told alone.
pub(crate) fn install<F: Flash>(
    alloc: Global,
    flash: &mut F,
    state: &mut State,
    chooser: &Chooser,
    target: usize,
    place: &SlotImage,
    page: &mut [u8],
) -> Result<Report, Refusal>
    requires served { IsServed (keyed_of state.old) (Install chooser.now target place.now) }
    requires hand { IsAtHand state.old (F.device flash.old) }
    requires page { length page.old ≡ (F.device flash.old).geometry.page }
    ensures did { IsDone (keyed_of state.old) (used_of state.old) state.old.table
        (Install chooser.now target place.now) (F.device flash.old) (F.device flash.new) result }
{
    let image = place.image.as_slice();
    let end = bb_install::install(state, chooser, target, place.slot, image, page, flash);
    report(alloc, chooser, target, place, end)
}

// What is sent of the end of an install.
fn report(
    alloc: Global,
    chooser: &Chooser,
    target: usize,
    place: &SlotImage,
    end: InstallEnd,
) -> Result<Report, Refusal>
    ensures gives { IsEndTold chooser.now target place.now end result }
{
    match end {
        InstallEnd::Done => { Ok(Report::done(installed_text(alloc, chooser, target, place)?)) }
        InstallEnd::LastTarget => Err(last_target(alloc, chooser, target)?),
        InstallEnd::SlotFault { at } => Err(Refusal::SlotFault(at)),
        InstallEnd::Fault(fault) => Err(Refusal::from(fault)),
    }
}

// The refusal that names the target.
fn last_target(alloc: Global, chooser: &Chooser, target: usize) -> Result<Refusal, NoMemory>
    ensures { IfOk result (λ refusal.
        refusal ≡ refusals.LastTarget (installed_name chooser.now target)) }
{
    Ok(Refusal::LastTarget(Text::of(alloc, name_of(chooser, target))?))
}

fn name_of(chooser: &Chooser, target: usize) -> &str
    ensures { result.now ≡ installed_name chooser.now target }
{
    match chooser.name(target) {
        Some(name) => name.as_str(),
        None => "",
    }
}

// The line of an install that was made.
fn installed_text(
    alloc: Global,
    chooser: &Chooser,
    target: usize,
    place: &SlotImage,
) -> Result<Bytes, NoMemory>
    ensures { IfOk result (λ text. text ≡ installed_text chooser.now target place.now) }
{
    let name = name_of(chooser, target);
    let len = place.image.as_slice().len();
    let mut line = Bytes::none(alloc);
    let words = format!(in alloc; "installed {name} {len}\n")?;
    line.add(words.as_bytes())?;
    Ok(line)
}
