// Installs that are refused by the table that was loaded, or by the slot.
use super::rig::{Rig, board, boot, install, is_untouched, says};
use bb_flash::{Fault, Fill};
use bb_tool::Status;
use std::test::Fail;

fn exhausts() -> &'static str {
    "state -i board.dts -s bootstate.system1.remaining_attempts=0"
}

fn disables() -> &'static str {
    "state -i board.dts -s bootstate.system0.priority=0"
}

// The three programs are those of the save before.
#[test]
fn the_last_target_stays(rt: HostRuntime) -> Result<(), Fail> {
    let mut device = board(rt.alloc(), Rig::Blocks)?;
    says(&rt, rt.alloc(), exhausts(), &mut device, Status::Done, "")?;
    device.restart();
    let line = "fault 26 LastTarget system0\n";
    says(
        &rt,
        rt.alloc(),
        install(),
        &mut device,
        Status::LastTarget,
        line,
    )?;
    assert!(rt; device.programs() == 3);
    assert!(rt; device.erase_count() == 0);
    assert!(rt; is_untouched(Rig::Blocks, &device));
    Ok(())
}

// A target that is disabled already makes no first save: three programs before, and six after.
#[test]
fn a_disabled_target_is_saved_once(rt: HostRuntime) -> Result<(), Fail> {
    let mut device = board(rt.alloc(), Rig::Blocks)?;
    says(&rt, rt.alloc(), disables(), &mut device, Status::Done, "")?;
    device.restart();
    says(
        &rt,
        rt.alloc(),
        install(),
        &mut device,
        Status::Done,
        "installed system0 300\n",
    )?;
    assert!(rt; device.programs() == 9);
    Ok(())
}

// A target that is disabled already makes no first save. So the call after the load's reads is the
// program of the image, at 1,024.
#[test]
fn a_slot_fault_leaves_the_target_disabled(rt: HostRuntime) -> Result<(), Fail> {
    let mut device = board(rt.alloc(), Rig::Strides)?;
    says(&rt, rt.alloc(), disables(), &mut device, Status::Done, "")?;
    let reads = device.reads();
    device.restart();
    says(&rt, rt.alloc(), disables(), &mut device, Status::Done, "")?;
    let Ok(again) = u32::try_from(device.reads().saturating_sub(reads)) else {
        return Err(Fail::from("too many reads"));
    };
    device.restart();
    device.plan_fault(again, Fault::Fail(Fill::Junk))?;
    let line = "fault 27 SlotFault 1024\n";
    says(
        &rt,
        rt.alloc(),
        install(),
        &mut device,
        Status::SlotFault,
        line,
    )?;
    device.restart();
    says(
        &rt,
        rt.alloc(),
        boot(),
        &mut device,
        Status::Done,
        "start system1 left 2 tries 1\n",
    )
}
