ghost use Rattle.std.specs.Prelude.{◌≡◌, ◌≤◌, ◌<◌, length, true};
ghost use Rattle.bb_chooser.specs.Counting.{disable_of, enable_of};
ghost use Rattle.bb_install.specs.Beside.{IsBeside};
ghost use Rattle.bb_install.specs.Slot.{HasPlace};
ghost use Rattle.bb_install.specs.Steps.{IsInstallRun, IsOtherLeft, IsSaveStep, IsSlotStep};
ghost use Rattle.bb_install.specs.Steps.{IsStateLeft, ended};
ghost use Rattle.bb_shell.specs.Ends.{IsBoundIn, IsReady};
ghost use Rattle.bb_state.specs.Backed.{HasItsKinds};
ghost use Rattle.bb_state.specs.State.{IsOn, is_sure, keyed_of, laid_of, last_table_of, used_of};

use crate::{InstallEnd, write_slot};
use bb_chooser::Chooser;
use bb_flash::{Flash, Region};
use bb_state::State;

/// Installs an image: disables the target and saves that, writes the slot, enables the target and
/// saves that. Each step comes after the one before it answered Ok. Where no other target qualifies
/// with this one disabled, that is LastTarget: nothing is saved, and the target stays disabled in
/// the table in memory. A call on the slot that fails leaves the target disabled. A save that is
/// refused leaves the table in memory as it was to be saved, and the state isn't sure. The state's
/// last load or save answered Ok, the chooser was bound to its layout, and `page` is as long as the
/// device's page. It takes no memory.
pub fn install<F: Flash>(
    state: &mut State,
    chooser: &Chooser,
    target: usize,
    slot: Region,
    image: &[u8],
    page: &mut [u8],
    flash: &mut F,
) -> InstallEnd
    requires ready { IsReady chooser.now state.old (F.device flash.old) }
    requires there { target < length chooser.now.targets }
    requires beside { IsBeside (laid_of state.old) slot }
    requires fits { length image.now ≤ slot.size }
    requires page { length page.old ≡ (F.device flash.old).geometry.page }
    ensures { IsInstallRun chooser.now target slot image.now state.old state.new
        (F.device flash.old) (F.device flash.new) result }
{
    match steps(state, chooser, target, slot, image, page, flash) {
        Ok(()) => InstallEnd::Done,
        Err(end) => end,
    }
}

// The four steps, up to the first that ends it.
fn steps<F: Flash>(
    state: &mut State,
    chooser: &Chooser,
    target: usize,
    slot: Region,
    image: &[u8],
    page: &mut [u8],
    flash: &mut F,
) -> Result<(), InstallEnd>
    requires ready { IsReady chooser.now state.old (F.device flash.old) }
    requires there { target < length chooser.now.targets }
    requires beside { IsBeside (laid_of state.old) slot }
    requires fits { length image.now ≤ slot.size }
    requires page { length page.old ≡ (F.device flash.old).geometry.page }
    ensures { IsInstallRun chooser.now target slot image.now state.old state.new
        (F.device flash.old) (F.device flash.new) (ended result) }
{
    disable(state, chooser, target)?;
    save(state, flash)?;
    write(slot, image, page, flash)?;
    finish(state, chooser, target, flash)
}

// Disables the target, in the table alone. It ends where no other one qualifies then.
fn disable(state: &mut State, chooser: &Chooser, target: usize) -> Result<(), InstallEnd>
    requires bound { IsBoundIn chooser.now (laid_of state.old) }
    requires there { target < length chooser.now.targets }
    ensures table { state.new.table ≡ disable_of chooser.now state.old.table target }
    ensures backing { state.new.backing ≡ state.old.backing }
    ensures other { IsOtherLeft chooser.now state.new.table result }
{
    chooser.disable(&mut state.table, target);
    if chooser.choose(&state.table).is_some() {
        return Ok(());
    }
    Err(InstallEnd::LastTarget)
}

// Saves the table, where it is another than the one that was loaded or saved last.
fn save<F: Flash>(state: &mut State, flash: &mut F) -> Result<(), InstallEnd>
    requires on { IsOn state.old (F.device flash.old) }
    requires sure { is_sure state.old ≡ true }
    ensures step { IsSaveStep (keyed_of state.old) (used_of state.old) (used_of state.new)
        (last_table_of state.old) state.old.table (F.device flash.old) (F.device flash.new) result }
    ensures leaves { IsStateLeft (keyed_of state.old) state.old.table state.new
        (F.device flash.new) (ended result) }
    ensures kinds { HasItsKinds state.new.backing }
{
    match state.save(flash) {
        Ok(()) => Ok(()),
        Err(fault) => Err(InstallEnd::Fault(fault)),
    }
}

// Writes the image to the slot.
fn write<F: Flash>(
    slot: Region,
    image: &[u8],
    page: &mut [u8],
    flash: &mut F,
) -> Result<(), InstallEnd>
    requires place { HasPlace (F.device flash.old).geometry slot }
    requires fits { length image.now ≤ slot.size }
    requires page { length page.old ≡ (F.device flash.old).geometry.page }
    ensures { IsSlotStep slot image.now (F.device flash.old) (F.device flash.new) result }
{
    match write_slot(slot, image, page, flash) {
        Ok(()) => Ok(()),
        Err(fault) => Err(InstallEnd::SlotFault { at: fault.at }),
    }
}

// Enables the target, and saves that.
fn finish<F: Flash>(
    state: &mut State,
    chooser: &Chooser,
    target: usize,
    flash: &mut F,
) -> Result<(), InstallEnd>
    requires ready { IsReady chooser.now state.old (F.device flash.old) }
    requires there { target < length chooser.now.targets }
    ensures step { IsSaveStep (keyed_of state.old) (used_of state.old) (used_of state.new)
        (last_table_of state.old) (enable_of chooser.now state.old.table target)
        (F.device flash.old) (F.device flash.new) result }
    ensures leaves { IsStateLeft (keyed_of state.old)
        (enable_of chooser.now state.old.table target) state.new
        (F.device flash.new) (ended result) }
{
    enable(state, chooser, target);
    save(state, flash)
}

// Enables the target, in the table alone.
fn enable(state: &mut State, chooser: &Chooser, target: usize)
    requires bound { IsBoundIn chooser.now (laid_of state.old) }
    requires there { target < length chooser.now.targets }
    ensures table { state.new.table ≡ enable_of chooser.now state.old.table target }
    ensures backing { state.new.backing ≡ state.old.backing }
{
    chooser.enable(&mut state.table, target);
}
