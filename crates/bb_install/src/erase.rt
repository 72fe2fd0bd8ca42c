ghost use Rattle.std.specs.Prelude.{◌≡◌, ◌+◌, ◌*◌, ◌/◌, ◌≤◌, ◌<◌, ◌%◌, ◌∷◌, [], IfErr, OnOk};
ghost use Rattle.std.specs.Prelude.{option_map, replicate};
ghost use Rattle.bb_flash.specs.Calls.{erased_bytes};
ghost use Rattle.bb_flash.specs.Device.{erases};
ghost use Rattle.bb_bucket.specs.Front.{put_at};
ghost use Rattle.bb_install.specs.Parts.{PartFails};
ghost use Rattle.bb_install.specs.Ranges.{block_ranges};
ghost use Rattle.bb_install.specs.Slot.{HasPlace};
ghost use Rattle.bb_install.specs.Writing.{SlotCalls, SlotWrites, StopsErasing};
ghost use Rattle.bb_install.specs.Writing.{counted_once, erases_of_slot};

use crate::SlotFault;
use bb_base::Failed;
use bb_flash::{Flash, Region};

/// Erases all blocks of a slot, in rising order. A device without blocks has none.
pub(crate) fn erase_slot<F: Flash>(slot: Region, flash: &mut F) -> Result<(), SlotFault>
    requires { HasPlace (F.device flash.old).geometry slot }
    ensures done { let geometry = (F.device flash.old).geometry in
        let count = slot.size / geometry.block in
        OnOk result (SlotWrites (block_ranges geometry.block slot count) slot
        (put_at geometry.page 0 (replicate (count * geometry.block) 255))
        (F.device flash.old) (F.device flash.new)) }
    ensures erases { let geometry = (F.device flash.old).geometry in OnOk result
        (erases (F.device flash.new)
        ≡ option_map (erases_of_slot geometry slot (slot.size / geometry.block))
        (erases (F.device flash.old))) }
    ensures failed { IfErr result (λ fault.
        StopsErasing slot fault.at (F.device flash.old) (F.device flash.new)) }
    ensures calls { SlotCalls result slot (F.device flash.old) (F.device flash.new) }
{
    let block = flash.geometry().block;
    let count = blocks_in(slot, block);
    for k in 0..count {
        erase_part(slot, k * block, flash)?;
    }
    Ok(())
}

// How many blocks a slot has.
fn blocks_in(slot: Region, block: u32) -> u32
    ensures { result ≡ slot.size / block }
{
    slot.size.checked_div(block).unwrap_or(0)
}

// Erases the block at a place of a slot.
fn erase_part<F: Flash>(slot: Region, at: u32, flash: &mut F) -> Result<(), SlotFault>
    requires place { HasPlace (F.device flash.old).geometry slot }
    requires blocks { 0 < (F.device flash.old).geometry.block }
    requires aligned { at % (F.device flash.old).geometry.block ≡ 0 }
    requires within { at + (F.device flash.old).geometry.block ≤ slot.size }
    ensures done { let geometry = (F.device flash.old).geometry in
        OnOk result (SlotWrites (record { at = slot.at + at; size = geometry.block } ∷ []) slot
        (put_at geometry.page at (erased_bytes geometry))
        (F.device flash.old) (F.device flash.new)) }
    ensures erases { let geometry = (F.device flash.old).geometry in OnOk result
        (erases (F.device flash.new)
        ≡ option_map (counted_once ((slot.at + at) / geometry.block) 1)
        (erases (F.device flash.old))) }
    ensures place { IfErr result (λ fault. fault.at ≡ slot.at + at) }
    ensures failed { IfErr result (λ fault.
        PartFails fault.at (erased_bytes (F.device flash.old).geometry)
        (F.device flash.old) (F.device flash.new)) }
    ensures calls { SlotCalls result slot (F.device flash.old) (F.device flash.new) }
{
    let block = flash.geometry().block;
    let first = slot.at + at;
    match flash.erase(first / block) {
        Ok(()) => Ok(()),
        Err(Failed) => Err(SlotFault { at: first }),
    }
}
