// A fresh board is booted until no target has an attempt left. It has 6 attempts in all, by the
// defaults that its first load gives: there are never more starts, wherever power is cut.
use super::boards::{Kind, fresh};
use super::sessions::{Retry, boot, files, says};
use bb_base::MemFiles;
use bb_flash::{Fault, Fill, MemBoard};
use bb_tool::Status;
use std::alloc::Global;
use std::process::Abort;
use std::test::Fail;

const ATTEMPTS: u32 = 6;

const NO_TARGET: &str = "fault 10 NoTarget\n";

// So many calls a session has at the most.
const MOST_CALLS: u32 = 40;

// In which sessions power is cut.
#[derive(Clone, Copy, Debug, PartialEq, Eq)]
enum Cuts {
    InTheFirstAndEachSecond,
    InTheSecondAndEachSecond,
}

// A cut at a call, in each second session, with what it leaves in the range of the call.
#[derive(Clone, Copy)]
struct Cut {
    sessions: Cuts,
    call: u32,
    fill: Fill,
}

#[test]
fn each_attempt_is_one_start(rt: HostRuntime) -> Result<(), Fail> {
    all_starts(&rt, rt.alloc(), Kind::Example)?;
    all_starts(&rt, rt.alloc(), Kind::Stride)?;
    all_starts(&rt, rt.alloc(), Kind::OneBlock)?;
    all_starts(&rt, rt.alloc(), Kind::Log)
}

#[test]
fn a_start_that_fails_spends_an_attempt(rt: HostRuntime) -> Result<(), Fail> {
    every_second_start(&rt, rt.alloc(), Kind::Example)?;
    every_second_start(&rt, rt.alloc(), Kind::Stride)?;
    every_second_start(&rt, rt.alloc(), Kind::OneBlock)?;
    every_second_start(&rt, rt.alloc(), Kind::Log)
}

#[test]
fn cuts_on_strides_add_no_start(rt: HostRuntime) -> Result<(), Fail> {
    cut_at_each_call(&rt, rt.alloc(), Kind::Stride, Retry::No)
}

#[test]
fn cuts_on_blocks_of_one_record_add_no_start(rt: HostRuntime) -> Result<(), Fail> {
    cut_at_each_call(&rt, rt.alloc(), Kind::OneBlock, Retry::No)
}

#[test]
fn cuts_on_logs_add_no_start(rt: HostRuntime) -> Result<(), Fail> {
    cut_at_each_call(&rt, rt.alloc(), Kind::Log, Retry::No)
}

#[test]
fn cuts_and_failed_starts_on_strides_add_no_start(rt: HostRuntime) -> Result<(), Fail> {
    cut_at_each_call(&rt, rt.alloc(), Kind::Stride, Retry::Yes)
}

#[test]
fn cuts_and_failed_starts_on_blocks_add_no_start(rt: HostRuntime) -> Result<(), Fail> {
    cut_at_each_call(&rt, rt.alloc(), Kind::OneBlock, Retry::Yes)
}

#[test]
fn cuts_and_failed_starts_on_logs_add_no_start(rt: HostRuntime) -> Result<(), Fail> {
    cut_at_each_call(&rt, rt.alloc(), Kind::Log, Retry::Yes)
}

// Power is never cut, and no start fails.
fn all_starts(rt: &impl Abort, alloc: Global, kind: Kind) -> Result<(), Fail> {
    let mut files = files(alloc, kind, Retry::No)?;
    let mut device = fresh(alloc, kind)?;
    for line in [
        "start system0 left 2 tries 1\n",
        "start system0 left 1 tries 1\n",
        "start system0 left 0 tries 1\n",
        "start system1 left 2 tries 1\n",
        "start system1 left 1 tries 1\n",
        "start system1 left 0 tries 1\n",
    ] {
        says(rt, alloc, &mut files, &mut device, Status::Done, line)?;
        device.restart();
    }
    let files = &mut files;
    says(rt, alloc, files, &mut device, Status::NoTarget, NO_TARGET)?;
    assert_eq!(rt; device.start_count(), ATTEMPTS);
    Ok(())
}

// The first start of each session fails, and the next one is made.
fn every_second_start(rt: &impl Abort, alloc: Global, kind: Kind) -> Result<(), Fail> {
    let mut files = files(alloc, kind, Retry::Yes)?;
    let mut device = fresh(alloc, kind)?;
    for line in [
        "start system0 left 1 tries 2\n",
        "start system1 left 2 tries 2\n",
        "start system1 left 0 tries 2\n",
    ] {
        device.fail_start(0)?;
        says(rt, alloc, &mut files, &mut device, Status::Done, line)?;
        device.restart();
    }
    let files = &mut files;
    says(rt, alloc, files, &mut device, Status::NoTarget, NO_TARGET)?;
    assert_eq!(rt; device.start_count(), 3);
    Ok(())
}

// The call moves on until no session has so many.
fn cut_at_each_call(rt: &impl Abort, alloc: Global, kind: Kind, retry: Retry) -> Result<(), Fail> {
    for call in 0..MOST_CALLS {
        if !is_met_with_a_fill(rt, alloc, kind, retry, call)? {
            assert!(rt; call > 0);
            return Ok(());
        }
    }
    Err(Fail::from("a session has more calls"))
}

// Whether a session has that call.
fn is_met_with_a_fill(
    rt: &impl Abort,
    alloc: Global,
    kind: Kind,
    retry: Retry,
    call: u32,
) -> Result<bool, Fail> {
    let mut is_met = false;
    for fill in [Fill::Old, Fill::Half, Fill::Junk, Fill::Lost] {
        is_met |= is_met_in_a_run(rt, alloc, kind, retry, call, fill)?;
    }
    Ok(is_met)
}

fn is_met_in_a_run(
    rt: &impl Abort,
    alloc: Global,
    kind: Kind,
    retry: Retry,
    call: u32,
    fill: Fill,
) -> Result<bool, Fail> {
    let cut = Cut {
        sessions: Cuts::InTheFirstAndEachSecond,
        call,
        fill,
    };
    let early = cuts_in_a_run(rt, alloc, kind, retry, cut)?;
    let cut = Cut {
        sessions: Cuts::InTheSecondAndEachSecond,
        ..cut
    };
    let late = cuts_in_a_run(rt, alloc, kind, retry, cut)?;
    Ok(early > 0 || late > 0)
}

// Sessions until no target is left: as many cuts as were met. Each session that isn't cut spends an
// attempt, or is the last one.
fn cuts_in_a_run(
    rt: &impl Abort,
    alloc: Global,
    kind: Kind,
    retry: Retry,
    cut: Cut,
) -> Result<u32, Fail> {
    let mut files = files(alloc, kind, retry)?;
    let mut device = fresh(alloc, kind)?;
    let mut cuts = 0u32;
    let mut done = 0u32;
    for session in 0..14u32 {
        let status = cut_session(alloc, &mut files, &mut device, retry, cut, session)?;
        cuts = cuts.saturating_add(u32::from(device.was_cut()));
        device.restart();
        if status == Status::NoTarget {
            ends(rt, &device, session, cuts, done);
            return Ok(cuts);
        }
        done = done.saturating_add(u32::from(status == Status::Done));
    }
    Err(Fail::from("targets are left"))
}

// A session, counted from 0, in which power may be cut. With `retry` its first start fails.
fn cut_session(
    alloc: Global,
    files: &mut MemFiles,
    device: &mut MemBoard,
    retry: Retry,
    cut: Cut,
    session: u32,
) -> Result<Status, Fail> {
    if is_cut(cut.sessions, session) {
        device.plan_fault(cut.call, Fault::Cut(cut.fill))?;
    }
    if retry == Retry::Yes {
        device.fail_start(0)?;
    }
    boot(alloc, files, device)
}

fn is_cut(sessions: Cuts, session: u32) -> bool {
    match sessions {
        Cuts::InTheFirstAndEachSecond => session % 2 == 0,
        Cuts::InTheSecondAndEachSecond => session % 2 == 1,
    }
}

// Each start was made by a session that was done, and there are no more starts than attempts.
fn ends(rt: &impl Abort, device: &MemBoard, sessions: u32, cuts: u32, done: u32) {
    assert_eq!(rt; device.start_count(), done);
    assert!(rt; device.start_count() <= ATTEMPTS);
    assert!(rt; sessions <= cuts.saturating_add(ATTEMPTS));
}
