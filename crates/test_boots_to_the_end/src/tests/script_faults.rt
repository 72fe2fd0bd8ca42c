// A script of three saves and a boot that meets a fault at each call that it makes of a fresh
// board, with each filling, failed and cut off. What it sent says which saves were acknowledged.
use super::boards::{Kind, fresh};
use super::scripts::{files_with, shell};
use super::sessions::session;
use bb_base::{MemFiles, MemSink};
use bb_flash::{Fault, Fill, MemBoard};
use bb_tool::Status;
use std::alloc::Global;
use std::process::Abort;
use std::test::Fail;

// So many calls the script has at the most.
const MOST_CALLS: u32 = 80;

// The saves of the script, that of its boot among them.
const SAVES: usize = 4;

fn script() -> &'static str {
    "for a in 1 2 3; do state.bootstate.last_chosen=$a; state -s; echo $a; done; boot bootchooser"
}

#[test]
fn a_script_on_strides_outlives_each_fault(rt: HostRuntime) -> Result<(), Fail> {
    outlives(&rt, rt.alloc(), Kind::Stride)
}

#[test]
fn a_script_on_blocks_of_one_record_outlives_each_fault(rt: HostRuntime) -> Result<(), Fail> {
    outlives(&rt, rt.alloc(), Kind::OneBlock)
}

#[test]
fn a_script_on_logs_outlives_each_fault(rt: HostRuntime) -> Result<(), Fail> {
    outlives(&rt, rt.alloc(), Kind::Log)
}

// The call moves on until the script has no such one.
fn outlives(rt: &impl Abort, alloc: Global, kind: Kind) -> Result<(), Fail> {
    for call in 0..MOST_CALLS {
        if !is_met_with_a_fill(rt, alloc, kind, call)? {
            assert!(rt; call > 0);
            return Ok(());
        }
    }
    Err(Fail::from("the script has more calls"))
}

// Whether the script has that call.
fn is_met_with_a_fill(rt: &impl Abort, alloc: Global, kind: Kind, call: u32) -> Result<bool, Fail> {
    let mut is_met = false;
    for fill in [Fill::Old, Fill::Half, Fill::Junk, Fill::Lost] {
        is_met |= is_met_once(rt, alloc, kind, call, Fault::Cut(fill))?;
        is_met |= is_met_once(rt, alloc, kind, call, Fault::Fail(fill))?;
    }
    Ok(is_met)
}

fn is_met_once(
    rt: &impl Abort,
    alloc: Global,
    kind: Kind,
    call: u32,
    fault: Fault,
) -> Result<bool, Fail> {
    let mut files = files_with(alloc, kind, script())?;
    let mut device = fresh(alloc, kind)?;
    device.plan_fault(call, fault)?;
    let mut out = MemSink::with_room(alloc, 100)?;
    let status = shell(alloc, &mut files, &mut device, &mut out)?;
    let saves = acknowledged(out.sent_bytes());
    assert_eq!(rt; status == Status::Done, saves == SAVES);
    assert_eq!(rt; device.start_count() == 1, saves == SAVES);
    let is_met = device.faulted();
    device.restart();
    keeps(rt, alloc, &mut files, &mut device, saves)?;
    Ok(is_met)
}

// How many saves were acknowledged by the time of which the script sent this.
fn acknowledged(sent: &[u8]) -> usize {
    if sent.starts_with(b"1\n2\n3\nstart system0 left 2 tries 1\n") {
        SAVES
    } else if sent.starts_with(b"1\n2\n3\n") {
        3
    } else if sent.starts_with(b"1\n2\n") {
        2
    } else {
        usize::from(sent.starts_with(b"1\n"))
    }
}

// The next session loads the table that was acknowledged last, or the one after it.
fn keeps(
    rt: &impl Abort,
    alloc: Global,
    files: &mut MemFiles,
    device: &mut MemBoard,
    saves: usize,
) -> Result<(), Fail> {
    let line =
        "state -i board.dts -g bootstate.last_chosen -g bootstate.system0.remaining_attempts";
    let mut out = MemSink::with_room(alloc, 100)?;
    let status = session(alloc, files, device, line, &mut out)?;
    assert_eq!(rt; status, Status::Done);
    let is_kept = out.sent_bytes() == table_after(saves);
    assert!(rt; is_kept || out.sent_bytes() == table_after(saves.saturating_add(1)));
    Ok(())
}

// What that session sends of the table of so many saves.
fn table_after(saves: usize) -> &'static [u8] {
    match saves {
        0 => b"0\n3\n",
        1 => b"1\n3\n",
        2 => b"2\n3\n",
        3 => b"3\n3\n",
        _ => b"1\n2\n",
    }
}
