// A script of three saves and a boot that meets a fault: in strides, in blocks with one record and
// in logs, on a blank board and on one that holds a record, at each call that it makes of the
// flash, with each filling, where the call fails and where it is cut. After a restart a load gives
// one of the tables that the script saves, or the one before it; and the last of them, which shows
// the spent attempt, where a start was made.
use super::devices::{Kind, blank};
use super::rig::{loaded, ran};
use bb_flash::{Fault, Fill, MemBoard};
use bb_script_commands::RunEnd;
use std::alloc::Global;
use std::process::Abort;
use std::test::Fail;

// Three saves of other places of the target that was chosen last, and a boot.
fn script() -> &'static [u8] {
    b"for a in 1 2 1; do state.bootstate.last_chosen=$a; state -s; done; boot bootchooser"
}

// Leaves the defaults in each copy, and in a log a first entry before them.
fn stores_defaults() -> &'static [u8] {
    b"state.bootstate.last_chosen=2; state -s; state.bootstate.last_chosen=0; state -s"
}

// The area in which system0 has so many attempts, and the target of this place was chosen last.
fn area_of(attempts: u8, chosen: u8) -> [u8; 20] {
    let mut area =
        *b"\x00\x00\x00\x00\x14\x00\x00\x00\x03\x00\x00\x00\x0a\x00\x00\x00\x00\x00\x00\x00";
    area[0] = attempts;
    area[16] = chosen;
    area
}

// What may be found: the defaults, what the saves store, and what the boot stores before its start.
fn is_known(area: &[u8]) -> bool {
    area == area_of(3, 0).as_slice()
        || area == area_of(3, 1).as_slice()
        || area == area_of(3, 2).as_slice()
        || area == area_of(2, 1).as_slice()
}

// A kind of storage, whether the defaults were stored, and the calls that the script makes where
// nothing fails: reads by the load, and then programs and erases by the saves.
#[derive(Clone, Copy)]
struct Row {
    kind: Kind,
    stored: bool,
    reads: u32,
    writes: u32,
}

// Each of the four saves programs three copies.
#[test]
fn strides(rt: HostRuntime) -> Result<(), Fail> {
    let kind = Kind::Stride;
    meets_each(&rt, rt.alloc(), row_of(kind, false, 3, 12))?;
    meets_each(&rt, rt.alloc(), row_of(kind, true, 6, 12))
}

// An erase comes before each program.
#[test]
fn blocks_of_one_record(rt: HostRuntime) -> Result<(), Fail> {
    let kind = Kind::OneBlock;
    meets_each(&rt, rt.alloc(), row_of(kind, false, 3, 24))?;
    meets_each(&rt, rt.alloc(), row_of(kind, true, 6, 24))
}

// Four entries fit a block. Where there are two, the third save erases the blocks.
#[test]
fn logs(rt: HostRuntime) -> Result<(), Fail> {
    let kind = Kind::Log;
    meets_each(&rt, rt.alloc(), row_of(kind, false, 24, 12))?;
    meets_each(&rt, rt.alloc(), row_of(kind, true, 18, 15))
}

fn row_of(kind: Kind, stored: bool, reads: u32, writes: u32) -> Row {
    Row {
        kind,
        stored,
        reads,
        writes,
    }
}

// What fills a range counts for nothing at a read.
fn meets_each(rt: &impl Abort, alloc: Global, row: Row) -> Result<(), Fail> {
    makes_calls(rt, alloc, row)?;
    for call in 0..row.reads {
        meets(rt, alloc, row, call, Fault::Fail(Fill::Old))?;
        meets(rt, alloc, row, call, Fault::Cut(Fill::Old))?;
    }
    for call in row.reads..row.reads.saturating_add(row.writes) {
        for fill in [Fill::Old, Fill::Half, Fill::Junk, Fill::Lost] {
            meets(rt, alloc, row, call, Fault::Fail(fill))?;
            meets(rt, alloc, row, call, Fault::Cut(fill))?;
        }
    }
    Ok(())
}

fn board_of(alloc: Global, row: Row) -> Result<MemBoard, Fail> {
    let mut device = blank(alloc, row.kind)?;
    if row.stored {
        store_defaults(alloc, row.kind, &mut device)?;
    }
    Ok(device)
}

fn store_defaults(alloc: Global, kind: Kind, device: &mut MemBoard) -> Result<(), Fail> {
    let end = ran(alloc, kind, stores_defaults(), device)?;
    if !matches!(end, Some(RunEnd::Done(0))) {
        return Err(Fail::from("not stored"));
    }
    device.restart();
    Ok(())
}

fn writes_of(device: &MemBoard) -> u64 {
    device.programs().saturating_add(device.erase_count())
}

// Without a fault the script makes the calls of its row, and no other, and starts.
fn makes_calls(rt: &impl Abort, alloc: Global, row: Row) -> Result<(), Fail> {
    let mut device = board_of(alloc, row)?;
    let reads = device.reads().saturating_add(u64::from(row.reads));
    let writes = writes_of(&device).saturating_add(u64::from(row.writes));
    let end = ran(alloc, row.kind, script(), &mut device)?;
    assert_eq!(rt; end, Some(RunEnd::Started));
    assert_eq!(rt; device.reads(), reads);
    assert_eq!(rt; writes_of(&device), writes);
    shows_the_spent_attempt(rt, alloc, row.kind, &mut device)
}

fn meets(rt: &impl Abort, alloc: Global, row: Row, call: u32, fault: Fault) -> Result<(), Fail> {
    let mut device = board_of(alloc, row)?;
    device.plan_fault(call, fault)?;
    let end = ran(alloc, row.kind, script(), &mut device)?;
    let has_started = matches!(end, Some(RunEnd::Started));
    assert_eq!(rt; device.start_count(), u32::from(has_started));
    device.restart();
    if has_started {
        return shows_the_spent_attempt(rt, alloc, row.kind, &mut device);
    }
    shows_a_table(rt, alloc, row.kind, &mut device)
}

fn shows_the_spent_attempt(
    rt: &impl Abort,
    alloc: Global,
    kind: Kind,
    device: &mut MemBoard,
) -> Result<(), Fail> {
    let area = loaded(alloc, kind, device)?;
    assert_eq!(rt; area.as_slice(), area_of(2, 1).as_slice());
    Ok(())
}

fn shows_a_table(
    rt: &impl Abort,
    alloc: Global,
    kind: Kind,
    device: &mut MemBoard,
) -> Result<(), Fail> {
    let area = loaded(alloc, kind, device)?;
    let known = is_known(area.as_slice());
    assert!(rt; known);
    Ok(())
}
