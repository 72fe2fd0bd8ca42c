// Copies that differ, fail or are voided, and what a session makes of them, on a device of 1 MiB.
use super::entries::Entry::{self, BootNew, BootOld, BootPreferred, BootVoided};
use super::rig::{Rig, board, holds};
use super::session;
use super::steps::Step::{Does, Ends, Holds, Meets, Programs, Restarts};
use super::steps::plays_from;
use bb_base::MemSink;
use bb_flash::{Fault, Fill, MemBoard};
use bb_tool::Status;
use std::alloc::Global;
use std::process::Abort;
use std::test::Fail;

const ALL_OLD: [&[Entry]; 3] = [&[BootOld], &[BootOld], &[BootOld]];

#[test]
fn a_load_writes_the_first_area_to_the_others(rt: HostRuntime) -> Result<(), Fail> {
    is_mended_once(&rt, rt.alloc(), [&[BootNew], &[BootOld], &[]], &[BootNew])?;
    is_mended_once(&rt, rt.alloc(), [&[], &[BootOld], &[BootNew]], &[BootOld])
}

// A load writes two copies, and all are then this one. The next load writes none.
fn is_mended_once(
    rt: &impl Abort,
    alloc: Global,
    before: [&[Entry]; 3],
    after: &'static [Entry],
) -> Result<(), Fail> {
    let steps = [
        Does("state -i a.dts", ""),
        Programs(2),
        Holds(after, after, after),
        Does("state -i a.dts", ""),
        Programs(2),
    ];
    plays_from(rt, alloc, Rig::Boot, before, &steps)
}

// Six reads, and then the write of copy 1 and its voiding.
#[test]
fn a_copy_that_cant_be_voided_ends_the_save(rt: HostRuntime) -> Result<(), Fail> {
    assert_eq!(rt; Status::WriteFault.code(), 9);
    let steps = [
        Meets(6, Fault::Fail(Fill::Old)),
        Meets(7, Fault::Fail(Fill::Old)),
        Ends(
            "state -i a.dts -s bootstate.last_chosen=1",
            Status::WriteFault,
            "fault 9 WriteFault 1\n",
        ),
        Programs(0),
        Holds(&[BootOld], &[BootOld], &[BootOld]),
        Restarts,
        Does("state -i a.dts -g bootstate.last_chosen", "0\n"),
    ];
    plays_from(&rt, rt.alloc(), Rig::Boot, ALL_OLD, &steps)
}

#[test]
fn a_copy_that_is_voided_is_written_by_the_next_load(rt: HostRuntime) -> Result<(), Fail> {
    let steps = [
        Meets(6, Fault::Fail(Fill::Junk)),
        Does("state -i a.dts -s bootstate.last_chosen=1", ""),
        Holds(&[BootNew], &[BootVoided], &[BootNew]),
        Programs(3),
        Restarts,
        Does("state -i a.dts -g bootstate.last_chosen", "1\n"),
        Holds(&[BootNew], &[BootNew], &[BootNew]),
        Programs(4),
    ];
    plays_from(&rt, rt.alloc(), Rig::Boot, ALL_OLD, &steps)
}

#[test]
fn a_save_is_made_where_the_output_fails(rt: HostRuntime) -> Result<(), Fail> {
    let alloc = rt.alloc();
    let mut device = board(alloc, Rig::Boot, [&[], &[], &[]])?;
    saves_unheard(&rt, alloc, &mut device)?;
    let all: [&[Entry]; 3] = [&[BootPreferred], &[BootPreferred], &[BootPreferred]];
    holds(&rt, alloc, Rig::Boot, &device, all)
}

// A session whose output takes nothing.
fn saves_unheard(rt: &impl Abort, alloc: Global, device: &mut MemBoard) -> Result<(), Fail> {
    let words = "state -i a.dts -s bootstate.system1.priority=30 -g bootstate.system1.priority";
    let mut out = MemSink::with_room(alloc, 100)?;
    out.fail_call(0)?;
    let status = session(alloc, Rig::Boot, words, device, &mut out)?;
    is_unheard(rt, status, out.sent_bytes());
    Ok(())
}

fn is_unheard(rt: &impl Abort, status: Status, sent: &[u8]) {
    assert_eq!(rt; status, Status::SinkFault);
    assert_eq!(rt; status.code(), 14);
    assert_eq!(rt; sent, [].as_slice());
}
