ghost use Rattle.std.specs.Prelude.{◌≡◌, ◌<◌, ◌%◌, IfErr, IfOk};
ghost use Rattle.bb_flash.specs.Cuts.{IsLater};
ghost use Rattle.bb_flash.specs.Device.{IsDevice};
ghost use Rattle.bb_plan.specs.Plan.{FitsOn};
ghost use Rattle.bb_plan.specs.Refusal.{IsSendableRefusal};
ghost use Rattle.bb_session.specs.Comparing.{IsComparedAs, compare_text};

use crate::report::Report;
use bb_base::{Bytes, NoMemory};
use bb_flash::Flash;
use bb_install::first_difference;
use bb_plan::{Refusal, SlotImage};
use std::alloc::Global;

// In bytes: what is read at once of a device that is overwritten in place.
const PIECE_LEN: usize = 65_536;

/// Says whether a slot holds its image, or which is the first byte that differs.
pub fn compare<F: Flash>(alloc: Global, flash: &mut F, place: &SlotImage) -> Result<Report, Refusal>
    requires place { FitsOn (F.device flash.old).geometry place.now }
    requires whole { IsDevice (F.device flash.old) }
    ensures gives { IsComparedAs place.now (F.device flash.old) (F.device flash.new) result }
    ensures tellable { IfErr result IsSendableRefusal }
    ensures later { IsLater (F.device flash.old) (F.device flash.new) }
{
    let mut buffer = vec![in alloc; 0u8; buffer_len(flash.geometry().page)]?;
    let image = place.image.as_slice();
    let Ok(found) = first_difference(place.slot, image, &mut buffer, flash) else {
        return Err(Refusal::ReadFault);
    };
    Report::of(compare_text(alloc, found))
}

// How many bytes are read at once: a page, or more where a page is one byte.
fn buffer_len(page: u32) -> usize
    requires { 0 < page }
    ensures some { 0 < result }
    ensures pages { result % page ≡ 0 }
{
    if page == 1 { PIECE_LEN } else { page as usize }
}

fn compare_text(alloc: Global, found: Option<u32>) -> Result<Bytes, NoMemory>
    ensures { IfOk result (λ text. text ≡ compare_text found) }
{
    let mut text = Bytes::none(alloc);
    match found {
        Some(offset) => {
            let words = format!(in alloc; "differs {offset}\n")?;
            text.add(words.as_bytes())?;
        }
        None => text.add(b"same\n")?,
    }
    Ok(text)
}
