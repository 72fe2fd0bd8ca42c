ghost use Rattle.std.specs.Prelude.{◌≡◌, ◌<◌, Some, length, slice_get};
ghost use Rattle.bb_history.specs.History.{AreRegionsOf, ReadsHistory, regions_text};
ghost use Rattle.bb_layout.specs.Layout.{fields_of};
ghost use Rattle.bb_state.specs.Kinds.{any_form};

use crate::fault::HistoryFault;
use crate::region::read_region;
use crate::room::PageRoom;
use bb_base::{Bytes, Format};
use bb_flash::{Flash, Region};
use bb_layout::Layout;
use bb_state::AnyFormat;
use std::alloc::Global;

/// Adds the history of these regions, two or three of the layout's storage: for each, in their
/// order, the line `copy I entries N`, and for each area that a record in it passes, oldest first,
/// the line `entry K`, from 1, and a line for each variable, as the layout reads that area, of
/// whatever length. Nothing changes on the device. The format is one that a state of the layout
/// keeps. ReadFault comes only where the device's count of failed reads rose; after it, and after
/// NoMemory, a front of the text was added.
///
/// A log is read backwards once, and each entry that passes once more, forwards. That an older
/// entry was ever acknowledged isn't said.
pub fn read_history<F: Flash>(
    alloc: Global,
    layout: &Layout,
    format: &AnyFormat,
    regions: &[Region],
    flash: &mut F,
    out: &mut Bytes,
) -> Result<(), HistoryFault>
    requires { AreRegionsOf (F.device flash.old).geometry layout.now.storage regions.now }
    ensures { ReadsHistory (λ image. regions_text (fields_of layout.now) (any_form format.now)
        (F.device flash.old).geometry.page 0 regions.now image)
        (F.device flash.old) (F.device flash.new) out.old out.new result }
{
    let page = flash.geometry().page;
    let mut memory = PageRoom::of(alloc, page, format.area_len())?;
    for copy in 0..regions.len() {
        let region = region_at(regions, copy);
        read_region(alloc, flash, region, layout, format, copy, &mut memory, out)?;
    }
    Ok(())
}

// The region of the copy of this number.
fn region_at(regions: &[Region], copy: usize) -> Region
    requires { copy < length regions.now }
    ensures { slice_get regions.now copy ≡ Some result }
{
    regions[copy]
}
