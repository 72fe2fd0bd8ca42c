// Reads that fail, and outputs.
use super::{answers, board, fresh, holds, look, save, says, sent, session, written};
use bb_base::MemSink;
use bb_flash::{Fault, Fill, MemBoard};
use bb_tool::Status;
use std::alloc::Global;
use std::process::Abort;
use std::test::Fail;

// A look whose read with this number fails.
fn misses(rt: &impl Abort, alloc: Global, call: u32) -> Result<(), Fail> {
    let mut device = board(alloc, &written())?;
    device.plan_fault(call, Fault::Fail(Fill::Old))?;
    let line = "fault 8 ReadFault\n";
    says(rt, alloc, &look(), &mut device, Status::ReadFault, line)?;
    holds(rt, &device, &written());
    Ok(())
}

#[test]
fn a_failed_read_is_told(rt: HostRuntime) -> Result<(), Fail> {
    let alloc = rt.alloc();
    misses(&rt, alloc, 0)?;
    misses(&rt, alloc, 1)
}

// An output that refuses the first piece.
fn failing(alloc: Global) -> Result<MemSink, Fail> {
    let mut out = MemSink::with_room(alloc, 100)?;
    out.fail_call(0)?;
    Ok(out)
}

// A session whose output fails, on a device with these bytes.
fn is_not_heard(rt: &impl Abort, alloc: Global, all: &[&str], bytes: &[u8]) -> Result<(), Fail> {
    let mut device = board(alloc, bytes)?;
    ends_unheard(rt, alloc, all, &mut device)
}

fn ends_unheard(
    rt: &impl Abort,
    alloc: Global,
    all: &[&str],
    device: &mut MemBoard,
) -> Result<(), Fail> {
    let mut out = failing(alloc)?;
    let answer = session(alloc, all, device, &mut out)?;
    answers(rt, answer, Status::SinkFault, "");
    sent(rt, &out, "");
    holds(rt, device, &written());
    Ok(())
}

#[test]
fn a_failing_output_is_told_behind_the_work(rt: HostRuntime) -> Result<(), Fail> {
    let alloc = rt.alloc();
    assert_eq!(rt; Status::SinkFault.code(), 14);
    is_not_heard(&rt, alloc, &look(), &written())?;
    is_not_heard(&rt, alloc, &save(), &fresh())
}
