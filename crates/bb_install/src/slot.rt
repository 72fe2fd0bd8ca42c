ghost use Rattle.std.specs.Prelude.{◌≡◌, ◌↔◌, IfOk, Err};
ghost use Rattle.bb_tree.specs.NodeViews.{branch_of};
ghost use Rattle.bb_layout.specs.Backend.{partition_of};
ghost use Rattle.bb_layout.specs.Storage.{is_aligned};
ghost use Rattle.bb_install.specs.Slot as spec;
ghost use Rattle.bb_install.specs.Slot.{HasBadReg, HasNoSlot, HasPlace, IsMisplaced, Overlaps};
ghost use Rattle.bb_install.specs.Slot.{SharesByte, slot_question};
ghost use Rattle.bb_install.specs.declared.slot_error.SlotError.TheVariants.{BadReg, NoSlot};
ghost use Rattle.bb_install.specs.declared.slot_error.SlotError.TheVariants.{OutOfDevice};
ghost use Rattle.bb_install.specs.declared.slot_error.SlotError.TheVariants.{Overlap, Unaligned};

use crate::SlotError;
use crate::cells::region_in;
use crate::label::first_labelled;
use bb_flash::{Geometry, Region};
use bb_layout::Layout;
use bb_tree::{Node, Tree};

/// The slot of a label on a device of this geometry: the region that the `reg` of the first node in
/// preorder gives whose `label` is this string. It is in whole blocks, where the device has any,
/// lies on the device, and shares no byte with the partition of the layout. The first refusal in
/// the order of `SlotError` decides. It takes no memory.
pub fn slot_of(
    tree: &Tree,
    label: &str,
    geometry: Geometry,
    layout: &Layout,
) -> Result<Region, SlotError>
    ensures value { result ≡
        spec.slot_from (slot_question tree.now label.now geometry layout.now) }
    ensures place { IfOk result (HasPlace geometry) }
    ensures apart { IfOk result (λ slot. SharesByte slot layout.now.region → ⊥) }

    // Each refusal, and where it comes.
    ensures no_slot { (result ≡ Err NoSlot)
        ↔ HasNoSlot (slot_question tree.now label.now geometry layout.now) }
    ensures bad_reg { (result ≡ Err BadReg)
        ↔ HasBadReg (slot_question tree.now label.now geometry layout.now) }
    ensures unaligned { (result ≡ Err Unaligned) ↔ IsMisplaced Unaligned
        (slot_question tree.now label.now geometry layout.now) }
    ensures out_of_device { (result ≡ Err OutOfDevice) ↔ IsMisplaced OutOfDevice
        (slot_question tree.now label.now geometry layout.now) }
    ensures overlap { (result ≡ Err Overlap)
        ↔ Overlaps (slot_question tree.now label.now geometry layout.now) }
{
    found_slot(tree, label, geometry, layout.region)
}

// The slot of a label beside a region of copies.
fn found_slot(
    tree: &Tree,
    label: &str,
    geometry: Geometry,
    copies: Region,
) -> Result<Region, SlotError>
    ensures { result ≡ spec.slot_from (record {
      tree = branch_of tree.now.root;
      label = label.now;
      geometry = geometry;
      copies = copies;
    }) }
{
    let node = first_labelled(&tree.root, label).ok_or(SlotError::NoSlot)?;
    let slot = region(node).ok_or(SlotError::BadReg)?;
    check_place(geometry, slot)?;
    if regions_meet(slot, copies) {
        return Err(SlotError::Overlap);
    }
    Ok(slot)
}

// The region that `reg` gives.
fn region(node: &Node) -> Option<Region>
    ensures { result ≡ partition_of (branch_of node.now) }
{
    region_in(node.prop("reg")?)
}

fn check_place(geometry: Geometry, slot: Region) -> Result<(), SlotError>
    ensures { result ≡ spec.slot_place geometry slot }
{
    if !is_aligned(geometry, slot) {
        return Err(SlotError::Unaligned);
    }
    if u64::from(slot.at) + u64::from(slot.size) > u64::from(geometry.size) {
        return Err(SlotError::OutOfDevice);
    }
    Ok(())
}

fn is_aligned(geometry: Geometry, slot: Region) -> bool
    ensures { result ≡ is_aligned geometry slot }
{
    geometry.block == 0 || slot.at % geometry.block == 0 && slot.size % geometry.block == 0
}

// Whether a byte is in both regions.
fn regions_meet(one: Region, other: Region) -> bool
    ensures { result ≡ spec.regions_meet one other }
{
    let first = one.at.max(other.at);
    let end = (u64::from(one.at) + u64::from(one.size)).min(
        u64::from(other.at) + u64::from(other.size),
    );
    u64::from(first) < end
}
