// Boots that meet a fault: over contents of strides, of blocks with one record and of logs, at each
// call that they make of the flash, with each filling, where it fails, where the next one fails
// too, and where it is cut; with the first start made, and with one or three that fail before one
// is made. After a restart a load gives the table of one of the rounds, and that of the last one
// where a start was made.
use super::devices::board;
use super::rig::{boot, entry, loaded, with_retry_and_reset};
use super::rows::{
    Row, area_of, empty_strides, fresh_logs, fresh_strides, full_logs, full_strides, in_blocks,
    last_log, last_stride, logs_of_three_kinds, logs_without_room, strides_of_three_kinds,
    table_after,
};
use bb_flash::{Fault, Fill, MemBoard};
use bb_shell::BootEnd;
use std::alloc::Global;
use std::process::Abort;
use std::test::Fail;

fn fills() -> [Fill; 4] {
    [Fill::Old, Fill::Half, Fill::Junk, Fill::Lost]
}

// What a boot meets at a call.
#[derive(Clone, Copy)]
enum Meeting {
    Fails,
    FailsTwice,
    IsCut,
}

#[test]
fn the_spent_attempt_shows_on_strides(rt: HostRuntime) -> Result<(), Fail> {
    let alloc = rt.alloc();
    shows(&rt, alloc, fresh_strides(), 0)?;
    shows(&rt, alloc, full_strides(), 0)?;
    shows(&rt, alloc, strides_of_three_kinds(), 0)?;
    shows(&rt, alloc, last_stride(), 0)?;
    shows(&rt, alloc, empty_strides(), 0)
}

#[test]
fn it_shows_on_strides_behind_failed_starts(rt: HostRuntime) -> Result<(), Fail> {
    shows(&rt, rt.alloc(), full_strides(), 1)?;
    shows(&rt, rt.alloc(), full_strides(), 3)
}

#[test]
fn the_spent_attempt_shows_on_blocks_of_one_record(rt: HostRuntime) -> Result<(), Fail> {
    let alloc = rt.alloc();
    shows(&rt, alloc, in_blocks(fresh_strides()), 0)?;
    shows(&rt, alloc, in_blocks(full_strides()), 0)?;
    shows(&rt, alloc, in_blocks(strides_of_three_kinds()), 0)?;
    shows(&rt, alloc, in_blocks(last_stride()), 0)?;
    shows(&rt, alloc, in_blocks(empty_strides()), 0)
}

#[test]
fn it_shows_on_blocks_of_one_record_behind_failed_starts(rt: HostRuntime) -> Result<(), Fail> {
    shows(&rt, rt.alloc(), in_blocks(full_strides()), 1)?;
    shows(&rt, rt.alloc(), in_blocks(full_strides()), 3)
}

#[test]
fn the_spent_attempt_shows_on_logs(rt: HostRuntime) -> Result<(), Fail> {
    let alloc = rt.alloc();
    shows(&rt, alloc, fresh_logs(), 0)?;
    shows(&rt, alloc, full_logs(), 0)?;
    shows(&rt, alloc, logs_of_three_kinds(), 0)?;
    shows(&rt, alloc, last_log(), 0)?;
    shows(&rt, alloc, logs_without_room(), 0)
}

#[test]
fn it_shows_on_logs_behind_failed_starts(rt: HostRuntime) -> Result<(), Fail> {
    shows(&rt, rt.alloc(), full_logs(), 1)?;
    shows(&rt, rt.alloc(), logs_without_room(), 3)
}

// The first starts fail, so many, and then one is made. What fills a range counts for nothing at a
// read, and one that fails is the last call.
fn shows(rt: &impl Abort, alloc: Global, row: Row, failing: u32) -> Result<(), Fail> {
    let calls = calls_without_a_fault(rt, alloc, row, failing)?;
    for call in 0..row.reads {
        meets(rt, alloc, row, failing, call, Fill::Old, Meeting::Fails)?;
        meets(rt, alloc, row, failing, call, Fill::Old, Meeting::IsCut)?;
    }
    for call in row.reads..calls {
        for fill in fills() {
            meets(rt, alloc, row, failing, call, fill, Meeting::Fails)?;
            meets(rt, alloc, row, failing, call, fill, Meeting::FailsTwice)?;
            meets(rt, alloc, row, failing, call, fill, Meeting::IsCut)?;
        }
    }
    Ok(())
}

fn board_of(alloc: Global, row: Row, failing: u32) -> Result<MemBoard, Fail> {
    let mut device = board(alloc, row.kind, row.copies)?;
    for start in 0..failing {
        device.fail_start(start)?;
    }
    Ok(device)
}

fn makes_calls(rt: &impl Abort, device: &MemBoard, reads: u32, writes: u32) {
    let done = device.programs().saturating_add(device.erase_count());
    assert_eq!(rt; device.reads(), u64::from(reads));
    assert_eq!(rt; done, u64::from(writes));
}

// How many calls a boot makes that meets no fault: those of the row, and no other.
fn calls_without_a_fault(
    rt: &impl Abort,
    alloc: Global,
    row: Row,
    failing: u32,
) -> Result<u32, Fail> {
    let mut device = board_of(alloc, row, failing)?;
    let end = boot(
        alloc,
        row.kind,
        with_retry_and_reset(),
        entry(),
        true,
        &mut device,
    )?;
    assert!(rt; matches!(end, Some(BootEnd::Started { .. })));
    let further = row.further.saturating_mul(failing);
    let writes = row.mends.saturating_add(row.first).saturating_add(further);
    makes_calls(rt, &device, row.reads, writes);
    shows_round(rt, alloc, row, &mut device, failing)?;
    Ok(row.reads.saturating_add(writes))
}

fn plan(device: &mut MemBoard, call: u32, fill: Fill, meeting: Meeting) -> Result<(), Fail> {
    match meeting {
        Meeting::Fails => device.plan_fault(call, Fault::Fail(fill))?,
        Meeting::FailsTwice => {
            device.plan_fault(call, Fault::Fail(fill))?;
            device.plan_fault(call.saturating_add(1), Fault::Fail(fill))?;
        }
        Meeting::IsCut => device.plan_fault(call, Fault::Cut(fill))?,
    }
    Ok(())
}

fn makes_starts(rt: &impl Abort, device: &MemBoard, starts: u32) {
    assert_eq!(rt; device.start_count(), starts);
}

fn meets(
    rt: &impl Abort,
    alloc: Global,
    row: Row,
    failing: u32,
    call: u32,
    fill: Fill,
    meeting: Meeting,
) -> Result<(), Fail> {
    let mut device = board_of(alloc, row, failing)?;
    plan(&mut device, call, fill, meeting)?;
    let settings = with_retry_and_reset();
    let end = boot(alloc, row.kind, settings, entry(), true, &mut device)?;
    let has_started = matches!(end, Some(BootEnd::Started { .. }));
    makes_starts(rt, &device, u32::from(has_started));
    device.restart();
    if has_started {
        return shows_round(rt, alloc, row, &mut device, failing);
    }
    shows_a_round(rt, alloc, row, &mut device, failing)
}

// A load gives the table of the round in which the start was made.
fn shows_round(
    rt: &impl Abort,
    alloc: Global,
    row: Row,
    device: &mut MemBoard,
    failing: u32,
) -> Result<(), Fail> {
    let area = loaded(alloc, row.kind, device)?;
    let last = row.rounds.saturating_add(failing).saturating_add(1);
    assert_eq!(rt; area.as_slice(), area_of(table_after(last)).as_slice());
    Ok(())
}

// A load gives what stood there before, or the table of a round.
fn shows_a_round(
    rt: &impl Abort,
    alloc: Global,
    row: Row,
    device: &mut MemBoard,
    failing: u32,
) -> Result<(), Fail> {
    let area = loaded(alloc, row.kind, device)?;
    let known = is_known(row, failing, area.as_slice());
    assert!(rt; known);
    Ok(())
}

fn is_known(row: Row, failing: u32, area: &[u8]) -> bool {
    let before = area_of(row.loaded);
    (0..=failing).any(|round| is_after(row, round, area)) || area == before.as_slice()
}

// Whether this is the area after a round of the boot, counted from 0.
fn is_after(row: Row, round: u32, area: &[u8]) -> bool {
    let rounds = row.rounds.saturating_add(round).saturating_add(1);
    area == area_of(table_after(rounds)).as_slice()
}
