// Sessions that compare a slot with an image.
use super::rig::{Rig, board, install, says, verify};
use bb_flash::{Fault, Fill, Flash, Health, MemBoard};
use bb_tool::Status;
use std::alloc::Global;
use std::process::Abort;
use std::test::Fail;

// A comparison sends this, and changes nothing.
fn finds(rt: &impl Abort, alloc: Global, device: &mut MemBoard, sends: &str) -> Result<(), Fail> {
    let programs = device.programs();
    let erases = device.erase_count();
    says(rt, alloc, verify(), device, Status::Done, sends)?;
    assert!(rt; device.programs() == programs);
    assert!(rt; device.erase_count() == erases);
    Ok(())
}

fn before_and_after(rt: &impl Abort, alloc: Global, rig: Rig) -> Result<MemBoard, Fail> {
    let mut device = board(alloc, rig)?;
    finds(rt, alloc, &mut device, "differs 0\n")?;
    device.restart();
    says(
        rt,
        alloc,
        install(),
        &mut device,
        Status::Done,
        "installed system0 300\n",
    )?;
    device.restart();
    finds(rt, alloc, &mut device, "same\n")?;
    device.restart();
    Ok(device)
}

fn set_health(device: &mut MemBoard, page: u32, health: Health) -> Result<(), Fail> {
    let geometry = device.geometry();
    if u64::from(page) * u64::from(geometry.page) >= u64::from(geometry.size) {
        return Err(Fail::from("no such page"));
    }
    device.set_health(page, health);
    Ok(())
}

// Page 34 holds the bytes of the slot from 64 on, and page 33 those before.
#[test]
fn in_blocks(rt: HostRuntime) -> Result<(), Fail> {
    let mut device = before_and_after(&rt, rt.alloc(), Rig::Blocks)?;
    set_health(&mut device, 33, Health::Worn)?;
    set_health(&mut device, 34, Health::Lost)?;
    finds(&rt, rt.alloc(), &mut device, "differs 64\n")
}

#[test]
fn in_place(rt: HostRuntime) -> Result<(), Fail> {
    let _ = before_and_after(&rt, rt.alloc(), Rig::Strides)?;
    Ok(())
}

#[test]
fn a_read_that_fails(rt: HostRuntime) -> Result<(), Fail> {
    let mut device = board(rt.alloc(), Rig::Blocks)?;
    device.plan_fault(0, Fault::Fail(Fill::Old))?;
    says(
        &rt,
        rt.alloc(),
        verify(),
        &mut device,
        Status::ReadFault,
        "fault 8 ReadFault\n",
    )
}
