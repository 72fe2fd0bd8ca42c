ghost use Rattle.std.specs.Prelude.{◌≡◌, ◌≤◌, IfErr, IfOk, length};
ghost use Rattle.std.specs.Option.{option_copied};
ghost use Rattle.bb_flash.specs.Geometry.{IsGeometry};
ghost use Rattle.bb_layout.specs.Layout.{fields_of};
ghost use Rattle.bb_install.specs.Beside.{IsBeside};
ghost use Rattle.bb_plan.specs.Installing.{laid_slot_as, laid_slot_in};
ghost use Rattle.bb_plan.specs.Installing.{laid_slot_reading};
ghost use Rattle.bb_plan.specs.FilesRead.{IsExpected, IsReadAs};
ghost use Rattle.bb_plan.specs.Refusal.{IsSendableRefusal};

use crate::described::{read_tree, text_of};
use crate::file::read_file;
use crate::refusal::Refusal;
use bb_base::{Files, Text};
use bb_flash::{Geometry, Region};
use bb_install::{SlotError, slot_of};
use bb_layout::{Layout, layout_of};
use bb_words::Described;
use std::alloc::Global;

/// A layout, and the slot of a label beside its copies, or why there is none.
#[derive(Drop)]
pub(crate) struct LayoutWithSlot {
    pub layout: Layout,
    pub slot: Result<Region, SlotError>,
}

/// The layout of the state that words name, and the slot of a label, both by one file.
pub(crate) fn read_laid_slot<N: Files>(
    alloc: Global,
    files: &mut N,
    described: &Described,
    label: &Text,
    geometry: Geometry,
) -> Result<LayoutWithSlot, Refusal>
    requires { IsGeometry geometry }
    ensures read { IsReadAs (laid_slot_reading described.now label.now geometry) laid_slot_as
        (N.folder files.old) (N.folder files.new) result }
    ensures same_geometry { IfOk result (λ laid. laid.layout.geometry ≡ geometry) }
    ensures beside { IfOk result (λ laid. IfOk laid.slot (IsBeside (fields_of laid.layout))) }
    ensures tellable { IfErr result IsSendableRefusal }
{
    let bytes = read_file(alloc, files, &described.file)?;
    let name = described.name.as_ref();
    laid_slot(alloc, bytes.as_slice(), name, label, geometry)
}

// The same of the bytes of the file.
fn laid_slot(
    alloc: Global,
    bytes: &[u8],
    name: Option<&Text>,
    label: &Text,
    geometry: Geometry,
) -> Result<LayoutWithSlot, Refusal>
    requires geometry { IsGeometry geometry }
    requires short { length bytes.now ≤ 4294967295 }
    ensures gives { IsExpected
        (laid_slot_in (option_copied name.entry) label.now geometry bytes.now)
        laid_slot_as result }
    ensures same_geometry { IfOk result (λ laid. laid.layout.geometry ≡ geometry) }
    ensures beside { IfOk result (λ laid. IfOk laid.slot (IsBeside (fields_of laid.layout))) }
    ensures tellable { IfErr result IsSendableRefusal }
{
    let tree = read_tree(alloc, bytes)?;
    let layout = layout_of(alloc, &tree, text_of(name), geometry)?;
    let slot = slot_of(&tree, label.as_str(), geometry, &layout);
    Ok(LayoutWithSlot { layout, slot })
}
