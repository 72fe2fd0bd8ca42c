ghost use Rattle.std.specs.Prelude.{◌≡◌, ◌+◌, ◌≤◌, ◌<◌, ◌%◌, ◌∷◌, [], IfErr, OnOk, length, take};
ghost use Rattle.std.specs.Int.{div_ceil};
ghost use Rattle.std.specs.Option.{ForSome};
ghost use Rattle.bb_flash.specs.Device.{content, erases};
ghost use Rattle.bb_flash.specs.Image.{IsBlank};
ghost use Rattle.bb_bucket.specs.Front.{put_at};
ghost use Rattle.bb_bucket.specs.Kind.{part_of};
ghost use Rattle.bb_install.specs.Parts.{EachBlank, PartFails, StopsPaging};
ghost use Rattle.bb_install.specs.Ranges.{piece_ranges};
ghost use Rattle.bb_install.specs.Slot.{HasPlace};
ghost use Rattle.bb_install.specs.Writing.{SlotCalls, SlotWrites};

use crate::SlotFault;
use bb_base::Failed;
use bb_flash::{Flash, Region};

/// Programs whole pages from the start of a slot on, in rising order, `len` bytes at once.
pub(crate) fn program_pages<F: Flash>(
    slot: Region,
    pages: &[u8],
    len: usize,
    flash: &mut F,
) -> Result<(), SlotFault>
    requires place { HasPlace (F.device flash.old).geometry slot }
    requires some { 0 < len }
    requires aligned { len % (F.device flash.old).geometry.page ≡ 0 }
    requires whole { length pages.now % (F.device flash.old).geometry.page ≡ 0 }
    requires fits { length pages.now ≤ slot.size }
    requires blank { 0 < (F.device flash.old).geometry.block →
        ForSome (content (F.device flash.old)) (λ image.
        EachBlank (F.device flash.old).geometry.page slot.size
        (part_of (F.device flash.old).geometry.page slot image)) }
    ensures done { OnOk result (SlotWrites
        (piece_ranges len (length pages.now) slot (div_ceil (length pages.now) len)) slot
        (put_at (F.device flash.old).geometry.page 0 pages.now)
        (F.device flash.old) (F.device flash.new)) }
    ensures failed { IfErr result (λ fault. StopsPaging len slot pages.now fault.at
        (F.device flash.old) (F.device flash.new)) }
    ensures erases { erases (F.device flash.new) ≡ erases (F.device flash.old) }
    ensures calls { SlotCalls result slot (F.device flash.old) (F.device flash.new) }
{
    let _ = flash.geometry();
    let count = pages.len().div_ceil(len);
    for k in 0..count {
        let first = k * len;
        let end = pages.len().min(first + len);
        program_part(slot, first as u32, &pages[first..end], flash)?;
    }
    Ok(())
}

/// Programs whole pages at a place of a slot, by one program. On a device with blocks they are
/// blank before.
pub(crate) fn program_part<F: Flash>(
    slot: Region,
    at: u32,
    bytes: &[u8],
    flash: &mut F,
) -> Result<(), SlotFault>
    requires place { HasPlace (F.device flash.old).geometry slot }
    requires some { 0 < length bytes.now }
    requires within { at + length bytes.now ≤ slot.size }
    requires aligned { at % (F.device flash.old).geometry.page ≡ 0 }
    requires whole { length bytes.now % (F.device flash.old).geometry.page ≡ 0 }
    requires blank { 0 < (F.device flash.old).geometry.block →
        ForSome (content (F.device flash.old)) (λ image.
        IsBlank (F.device flash.old).geometry.page
        (part_of (F.device flash.old).geometry.page slot image) at (length bytes.now)) }
    ensures done { OnOk result (SlotWrites
        (record { at = slot.at + at; size = length bytes.now } ∷ []) slot
        (put_at (F.device flash.old).geometry.page at bytes.now)
        (F.device flash.old) (F.device flash.new)) }
    ensures place { IfErr result (λ fault. fault.at ≡ slot.at + at) }
    ensures failed { IfErr result (λ fault. PartFails fault.at bytes.now
        (F.device flash.old) (F.device flash.new)) }
    ensures erases { erases (F.device flash.new) ≡ erases (F.device flash.old) }
    ensures calls { SlotCalls result slot (F.device flash.old) (F.device flash.new) }
{
    let _ = flash.geometry();
    let first = slot.at + at;
    match flash.program(first, bytes) {
        Ok(()) => Ok(()),
        Err(Failed) => Err(SlotFault { at: first }),
    }
}
