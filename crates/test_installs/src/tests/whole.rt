// Sessions in which nothing fails.
use super::rig::{Rig, board, boot, install, is_blank_behind, is_whole, says};
use bb_tool::Status;
use std::alloc::Global;
use std::process::Abort;
use std::test::Fail;

// An install makes so many programs and erases, and the next boot starts the new system.
fn installs(
    rt: &impl Abort,
    alloc: Global,
    rig: Rig,
    programs: u64,
    erases: u64,
) -> Result<(), Fail> {
    let mut device = board(alloc, rig)?;
    says(
        rt,
        alloc,
        install(),
        &mut device,
        Status::Done,
        "installed system0 300\n",
    )?;
    assert!(rt; is_whole(rig, &device));
    assert!(rt; device.programs() == programs);
    assert!(rt; device.erase_count() == erases);
    device.restart();
    says(
        rt,
        alloc,
        boot(),
        &mut device,
        Status::Done,
        "start system0 left 2 tries 1\n",
    )
}

// Two saves of three copies each; two erases, a program of a block, one of a page, and one of the
// last page by itself.
#[test]
fn an_install_in_blocks(rt: HostRuntime) -> Result<(), Fail> {
    installs(&rt, rt.alloc(), Rig::Blocks, 9, 2)
}

// Two saves of three copies each, and one program.
#[test]
fn an_install_in_place(rt: HostRuntime) -> Result<(), Fail> {
    installs(&rt, rt.alloc(), Rig::Strides, 7, 0)
}

#[test]
fn all_blocks_of_the_slot_are_erased(rt: HostRuntime) -> Result<(), Fail> {
    let mut device = board(rt.alloc(), Rig::Blocks)?;
    says(
        &rt,
        rt.alloc(),
        install(),
        &mut device,
        Status::Done,
        "installed system0 300\n",
    )?;
    assert!(rt; is_blank_behind(&device));
    Ok(())
}

// The second install finds priority 40 and 3 attempts, disables the target again, and enables it.
#[test]
fn an_install_may_be_repeated(rt: HostRuntime) -> Result<(), Fail> {
    let mut device = board(rt.alloc(), Rig::Blocks)?;
    says(
        &rt,
        rt.alloc(),
        install(),
        &mut device,
        Status::Done,
        "installed system0 300\n",
    )?;
    device.restart();
    says(
        &rt,
        rt.alloc(),
        install(),
        &mut device,
        Status::Done,
        "installed system0 300\n",
    )?;
    assert!(rt; is_whole(Rig::Blocks, &device));
    assert!(rt; device.programs() == 18);
    Ok(())
}

fn priority() -> &'static str {
    "state -i board.dts -g bootstate.system0.priority -g bootstate.system0.remaining_attempts"
}

#[test]
fn the_target_gets_its_defaults(rt: HostRuntime) -> Result<(), Fail> {
    let mut device = board(rt.alloc(), Rig::Strides)?;
    says(
        &rt,
        rt.alloc(),
        install(),
        &mut device,
        Status::Done,
        "installed system0 300\n",
    )?;
    device.restart();
    says(
        &rt,
        rt.alloc(),
        priority(),
        &mut device,
        Status::Done,
        "40\n3\n",
    )
}
