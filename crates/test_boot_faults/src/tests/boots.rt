// Boots in strides, without a fault of the flash.
use super::areas::Content;
use super::devices::{Kind, board, image};
use super::rig::{boot, entry, no_kernel, plain, with_reset, with_retry};
use bb_flash::MemBoard;
use bb_shell::BootEnd;
use std::alloc::Global;
use std::process::Abort;
use std::test::Fail;

fn fresh(alloc: Global) -> Result<MemBoard, Fail> {
    board(alloc, Kind::Stride, [&[]; 3])
}

// A board whose strides all hold this.
fn holding(alloc: Global, record: Content) -> Result<MemBoard, Fail> {
    board(alloc, Kind::Stride, [&[record]; 3])
}

// The first boot of a power-on, with the settings that name no reset, and entries that can be
// started.
fn boot_plainly(alloc: Global, device: &mut MemBoard) -> Result<Option<BootEnd>, Fail> {
    boot(alloc, Kind::Stride, plain(), entry(), true, device)
}

// So many starts were made, and all strides hold this.
fn leaves(
    rt: &impl Abort,
    alloc: Global,
    device: &MemBoard,
    starts: u32,
    record: Content,
) -> Result<(), Fail> {
    let wanted = image(alloc, Kind::Stride, [&[record]; 3])?;
    assert_eq!(rt; device.start_count(), starts);
    assert_eq!(rt; device.bytes(), wanted.as_slice());
    Ok(())
}

fn ends(rt: &impl Abort, end: Option<BootEnd>, wanted: BootEnd) {
    assert_eq!(rt; end, Some(wanted));
}

fn started(target: u32, left: u32, tries: u64) -> BootEnd {
    BootEnd::Started {
        target,
        left,
        tries,
    }
}

fn failed(target: u32, tries: u64) -> BootEnd {
    BootEnd::StartFailed { target, tries }
}

// A boot by these settings and this entry ends so.
fn boots(
    rt: &impl Abort,
    alloc: Global,
    settings: &[u8],
    entry: &[u8],
    device: &mut MemBoard,
    wanted: BootEnd,
) -> Result<(), Fail> {
    let end = boot(alloc, Kind::Stride, settings, entry, true, device)?;
    ends(rt, end, wanted);
    Ok(())
}

fn boots_plainly(
    rt: &impl Abort,
    alloc: Global,
    device: &mut MemBoard,
    wanted: BootEnd,
) -> Result<(), Fail> {
    let end = boot_plainly(alloc, device)?;
    ends(rt, end, wanted);
    Ok(())
}

fn programs(rt: &impl Abort, device: &MemBoard, count: u64) {
    assert_eq!(rt; device.programs(), count);
}

#[test]
fn a_fresh_board_starts_the_first_system(rt: HostRuntime) -> Result<(), Fail> {
    let mut device = fresh(rt.alloc())?;
    boots_plainly(&rt, rt.alloc(), &mut device, started(0, 2, 1))?;
    leaves(&rt, rt.alloc(), &device, 1, Content::OneSpent)?;
    starts_the_first(&rt, &device)
}

fn starts_the_first(rt: &impl Abort, device: &MemBoard) -> Result<(), Fail> {
    let Some(plan) = device.plan_at(0) else {
        return Err(Fail::from("no plan"));
    };
    assert_eq!(rt; plan.place, 1);
    assert_eq!(rt; plan.linux.as_str(), "/zImage");
    assert_eq!(rt; plan.options.as_str(), "root=/dev/mmcblk0p1 rw");
    Ok(())
}

// A board that holds nothing, and whose first start fails.
fn failing(alloc: Global) -> Result<MemBoard, Fail> {
    let mut device = fresh(alloc)?;
    device.fail_start(0)?;
    Ok(device)
}

#[test]
fn a_start_that_failed_costs_an_attempt(rt: HostRuntime) -> Result<(), Fail> {
    let mut device = failing(rt.alloc())?;
    costs_an_attempt(&rt, rt.alloc(), &mut device)?;
    boots_plainly(&rt, rt.alloc(), &mut device, started(0, 1, 1))?;
    leaves(&rt, rt.alloc(), &device, 1, Content::TwoSpent)
}

fn costs_an_attempt(rt: &impl Abort, alloc: Global, device: &mut MemBoard) -> Result<(), Fail> {
    boots_plainly(rt, alloc, device, failed(0, 1))?;
    leaves(rt, alloc, device, 0, Content::OneSpent)
}

#[test]
fn a_system_with_attempts_is_started(rt: HostRuntime) -> Result<(), Fail> {
    let mut device = holding(rt.alloc(), Content::FirstEmpty)?;
    boots_plainly(&rt, rt.alloc(), &mut device, started(1, 2, 1))?;
    leaves(&rt, rt.alloc(), &device, 1, Content::OtherSpent)
}

#[test]
fn no_attempt_no_write(rt: HostRuntime) -> Result<(), Fail> {
    let mut device = holding(rt.alloc(), Content::Empty)?;
    boots_plainly(&rt, rt.alloc(), &mut device, BootEnd::NoTarget)?;
    programs(&rt, &device, 0);
    leaves(&rt, rt.alloc(), &device, 0, Content::Empty)
}

#[test]
fn a_reset_gives_attempts_back(rt: HostRuntime) -> Result<(), Fail> {
    let mut device = holding(rt.alloc(), Content::Empty)?;
    resets_nothing_later(&rt, rt.alloc(), &mut device)?;
    resets(&rt, rt.alloc(), &mut device)
}

// A boot that isn't the first of its session.
fn resets_nothing_later(rt: &impl Abort, alloc: Global, device: &mut MemBoard) -> Result<(), Fail> {
    let end = boot(alloc, Kind::Stride, with_reset(), entry(), false, device)?;
    ends(rt, end, BootEnd::NoTarget);
    Ok(())
}

fn resets(rt: &impl Abort, alloc: Global, device: &mut MemBoard) -> Result<(), Fail> {
    boots(rt, alloc, with_reset(), entry(), device, started(0, 2, 1))?;
    // one save of three copies: the reset isn't stored alone
    programs(rt, device, 3);
    leaves(rt, alloc, device, 1, Content::OneSpent)
}

#[test]
fn all_systems_are_tried(rt: HostRuntime) -> Result<(), Fail> {
    let alloc = rt.alloc();
    let mut device = fresh(alloc)?;
    let end = failed(1, 6);
    boots(&rt, alloc, with_retry(), no_kernel(), &mut device, end)?;
    leaves(&rt, alloc, &device, 0, Content::AllSpent)
}

#[test]
fn a_later_start_is_tried(rt: HostRuntime) -> Result<(), Fail> {
    let alloc = rt.alloc();
    let mut device = failing(alloc)?;
    let end = started(0, 1, 2);
    boots(&rt, alloc, with_retry(), entry(), &mut device, end)?;
    leaves(&rt, alloc, &device, 1, Content::TwoSpent)
}
