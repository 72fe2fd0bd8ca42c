// What is done with a device, step by step, and what is found then.
use super::rig::{Rig, board, holds};
use super::says;
use super::tables::Table;
use bb_flash::{Fault, Flash, Health, MemBoard};
use bb_tool::Status;
use std::alloc::Global;
use std::process::Abort;
use std::test::Fail;

/// A step, and what it gives.
#[derive(Clone, Copy)]
pub enum Step {
    /// A session of these words is done, and sends this.
    Does(&'static str, &'static str),
    /// A session of these words ends with this status, and sends this.
    Ends(&'static str, Status, &'static str),
    /// The call of this number, counted from the last restart, meets this fault.
    Meets(u32, Fault),
    /// A page of erase blocks gets this health.
    Turns(u32, Health),
    /// The device is started anew.
    Restarts,
    /// The copies begin with the entries of these tables, and all else is blank.
    Holds(&'static [Table], &'static [Table], &'static [Table]),
    /// So many reads were made.
    Reads(u64),
    /// So many programs were made.
    Programs(u64),
    /// So many erases were made.
    Erases(u64),
    /// So many systems were started.
    Starts(u32),
}

/// Plays these steps, one after the other.
pub fn plays(
    rt: &impl Abort,
    alloc: Global,
    rig: Rig,
    device: &mut MemBoard,
    steps: &[Step],
) -> Result<(), Fail> {
    for step in steps {
        play(rt, alloc, rig, device, *step)?;
    }
    Ok(())
}

fn play(
    rt: &impl Abort,
    alloc: Global,
    rig: Rig,
    device: &mut MemBoard,
    step: Step,
) -> Result<(), Fail> {
    match step {
        Step::Does(words, sends) => says(rt, alloc, rig, words, device, Status::Done, sends),
        Step::Ends(words, status, sends) => says(rt, alloc, rig, words, device, status, sends),
        Step::Meets(call, fault) => Ok(device.plan_fault(call, fault)?),
        Step::Turns(page, health) => turns(rt, device, page, health),
        Step::Restarts => {
            device.restart();
            Ok(())
        }
        Step::Holds(first, second, third) => {
            holds(rt, alloc, rig, device, [first, second, third])
        }
        Step::Reads(count) => is_count(rt, device.reads(), count),
        Step::Programs(count) => is_count(rt, device.programs(), count),
        Step::Erases(count) => is_count(rt, device.erase_count(), count),
        Step::Starts(count) => is_count(rt, u64::from(device.start_count()), u64::from(count)),
    }
}

fn turns(rt: &impl Abort, device: &mut MemBoard, page: u32, health: Health) -> Result<(), Fail> {
    let geometry = device.geometry();
    assert_eq!(rt; geometry.page, 32);
    assert_eq!(rt; geometry.size, 768);
    assert!(rt; page < 24);
    device.set_health(page, health);
    Ok(())
}

fn is_count(rt: &impl Abort, found: u64, count: u64) -> Result<(), Fail> {
    assert_eq!(rt; found, count);
    Ok(())
}

/// A device whose copies begin with the entries of these tables plays these steps.
pub fn plays_from(
    rt: &impl Abort,
    alloc: Global,
    rig: Rig,
    copies: [&[Table]; 3],
    steps: &[Step],
) -> Result<(), Fail> {
    let mut device = board(alloc, rig, copies)?;
    plays(rt, alloc, rig, &mut device, steps)
}
