ghost use Rattle.std.specs.Prelude.{◌≡◌, IfOk, option_map};
ghost use Rattle.bb_flash.specs.Cuts.{IsLater};
ghost use Rattle.bb_state.specs.State.{IsOn, keyed_of};
ghost use Rattle.bb_session.specs.Looking.{look_text};
ghost use Rattle.bb_plan.specs.declared.plan.Work.TheVariants.{Show};
ghost use Rattle.bb_session.specs.Work.{IsWorkedOut};

use crate::report::Report;
use bb_base::{Bytes, NoMemory};
use bb_flash::Flash;
use bb_plan::Refusal;
use bb_state::State;
use std::alloc::Global;

/// Looks at the copies, and gives the text of the first that passes.
pub(crate) fn look<F: Flash>(
    alloc: Global,
    flash: &mut F,
    state: &mut State,
) -> Result<Report, Refusal>
    requires { IsOn state.old (F.device flash.old) }
    ensures gives { IsWorkedOut (keyed_of state.old) Show
        (F.device flash.old) (F.device flash.new) result }
    ensures later { IsLater (F.device flash.old) (F.device flash.new) }
{
    let mut area = vec![in alloc; 0u8; state.layout().area_len as usize]?;
    let found = state.look(flash, &mut area)?;
    Report::of(look_text(alloc, found.then_some(area)))
}

// The text of a look: the area in hexadecimal, or `none`.
fn look_text(alloc: Global, found: Option<Vec<u8>>) -> Result<Bytes, NoMemory>
    ensures { IfOk result (λ text. text ≡ look_text (option_map (λ area. area.items) found)) }
{
    let mut text = Bytes::none(alloc);
    match found {
        Some(area) => {
            let digits = hex::encode(alloc, area.as_slice())?;
            text.add(digits.as_bytes())?;
            text.add(b"\n")?;
        }
        None => text.add(b"none\n")?,
    }
    Ok(text)
}
