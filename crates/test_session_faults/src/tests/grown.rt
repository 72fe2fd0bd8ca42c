// An update of a state's devicetree, whose new layout has one number more. A session by the old one
// meets a fault, and one by the new one is cut off. The loads after them give what either layout
// reads of an area that the copies may hold then.
use super::entries::Entry::{self, BlockOne, Grown, LogOne, One, Two};
use super::rig::{Rig, board};
use super::steps::Step::{Does, Holds, Programs};
use super::steps::{plays, plays_from};
use super::{answers, says, session};
use bb_base::MemSink;
use bb_flash::{Fault, Fill, MemBoard};
use bb_tool::Status;
use std::alloc::Global;
use std::process::Abort;
use std::test::Fail;

// A look by either layout makes no program, whichever layout saved the record.
#[test]
fn an_update_without_a_fault(rt: HostRuntime) -> Result<(), Fail> {
    let alloc = rt.alloc();
    let mut device = board(alloc, Rig::Strides, [&[One], &[One], &[One]])?;
    let old = [
        Does("state -i a.dts -s n=2", ""),
        Holds(&[Two], &[Two], &[Two]),
        Programs(3),
    ];
    let new = [
        Does("state -i a.dts -g n -g m", "2\n7\n"),
        Does("state -i a.dts -s m=7", ""),
        Programs(3),
        Does("state -i a.dts -s m=8", ""),
        Holds(&[Grown], &[Grown], &[Grown]),
        Programs(6),
    ];
    let back = [Does("state -i a.dts -g n", "2\n"), Programs(6)];
    plays(&rt, alloc, Rig::Strides, &mut device, &old)?;
    plays(&rt, alloc, Rig::Grown, &mut device, &new)?;
    plays(&rt, alloc, Rig::Strides, &mut device, &back)
}

// A copy that passes nothing, or another area, gets the stored record at its length.
#[test]
fn a_load_writes_what_is_stored(rt: HostRuntime) -> Result<(), Fail> {
    let steps = [
        Does("state -i a.dts -g n -g m", "2\n7\n"),
        Holds(&[Two], &[Two], &[Two]),
        Programs(2),
    ];
    plays_from(&rt, rt.alloc(), Rig::Grown, [&[Two], &[], &[One]], &steps)
}

// An update of a device: its two layouts, the entry of 1 there, and the calls at which the session
// by the old layout meets a fault, of which `end` is the first that it doesn't make.
#[derive(Clone, Copy)]
struct Update {
    old: Rig,
    new: Rig,
    one: &'static [Entry],
    from: u32,
    end: u32,
}

// The fault of the session by the old layout, and the cut of that by the new one.
#[derive(Clone, Copy)]
struct Faults {
    call: u32,
    fault: Fault,
    later: u32,
    fill: Fill,
}

// The old session makes six reads and three writes.
#[test]
fn an_update_of_strides_outlives_each_fault(rt: HostRuntime) -> Result<(), Fail> {
    let update = Update {
        old: Rig::Strides,
        new: Rig::Grown,
        one: &[One],
        from: 0,
        end: 9,
    };
    outlives(&rt, rt.alloc(), update)
}

// It makes six reads, and an erase and a program for each of the three copies. The last of its
// reads stands for all of them.
#[test]
fn an_update_of_blocks_of_one_record_outlives_each_fault(rt: HostRuntime) -> Result<(), Fail> {
    let update = Update {
        old: Rig::OneBlock,
        new: Rig::GrownBlock,
        one: &[BlockOne],
        from: 5,
        end: 12,
    };
    outlives(&rt, rt.alloc(), update)
}

// It reads six blank pages of each copy, the entry's last one and the entry, and makes three
// programs. The last of its reads stands for all of them.
#[test]
fn an_update_of_logs_outlives_each_fault(rt: HostRuntime) -> Result<(), Fail> {
    let update = Update {
        old: Rig::Log,
        new: Rig::GrownLog,
        one: &[LogOne],
        from: 23,
        end: 27,
    };
    outlives(&rt, rt.alloc(), update)
}

fn outlives(rt: &impl Abort, alloc: Global, update: Update) -> Result<(), Fail> {
    for call in update.from..update.end {
        for fill in [Fill::Old, Fill::Half, Fill::Junk, Fill::Lost] {
            each_fill(rt, alloc, update, call, Fault::Fail(fill))?;
            each_fill(rt, alloc, update, call, Fault::Cut(fill))?;
        }
    }
    Ok(())
}

fn each_fill(
    rt: &impl Abort,
    alloc: Global,
    update: Update,
    call: u32,
    fault: Fault,
) -> Result<(), Fail> {
    for fill in [Fill::Old, Fill::Half, Fill::Junk, Fill::Lost] {
        let faults = Faults {
            call,
            fault,
            later: 0,
            fill,
        };
        each_later(rt, alloc, update, faults)?;
    }
    Ok(())
}

// The session by the new layout is cut off at each of its calls, and then at none: it is done.
fn each_later(rt: &impl Abort, alloc: Global, update: Update, faults: Faults) -> Result<(), Fail> {
    for later in 0..100 {
        let is_done = meets_both(rt, alloc, update, Faults { later, ..faults })?;
        if is_done {
            return Ok(());
        }
    }
    Err(Fail::from("a session that is never done"))
}

// Whether the session by the new layout is done.
fn meets_both(
    rt: &impl Abort,
    alloc: Global,
    update: Update,
    faults: Faults,
) -> Result<bool, Fail> {
    let mut device = board(alloc, update.old, [update.one, update.one, update.one])?;
    let set = "state -i a.dts -s n=2";
    let old = meets(
        alloc,
        update.old,
        set,
        &mut device,
        faults.call,
        faults.fault,
    )?;
    let set = "state -i a.dts -s m=8";
    let cut = Fault::Cut(faults.fill);
    let new = meets(alloc, update.new, set, &mut device, faults.later, cut)?;
    let is_done = new == Status::Done;
    gives(
        rt,
        alloc,
        update,
        &mut device,
        allowed(update, faults, old == Status::Done, is_done),
    )?;
    Ok(is_done)
}

// A session that meets a fault at a call, and a restart.
fn meets(
    alloc: Global,
    rig: Rig,
    line: &str,
    device: &mut MemBoard,
    call: u32,
    fault: Fault,
) -> Result<Status, Fail> {
    let mut out = MemSink::with_room(alloc, 100)?;
    device.plan_fault(call, fault)?;
    let status = session(alloc, rig, line, device, &mut out)?;
    device.restart();
    Ok(status)
}

// What the new layout may read: what each session set that was done, and of one that wasn't what
// it set or what was there.
fn allowed(update: Update, faults: Faults, old: bool, new: bool) -> &'static [&'static str] {
    if lays_bare(update, faults) {
        return &["1\n7\n"];
    }
    match (old, new) {
        (true, true) => &["2\n8\n"],
        (true, false) => &["2\n7\n", "2\n8\n"],
        (false, true) => &["1\n8\n", "2\n8\n"],
        (false, false) => &["1\n7\n", "2\n7\n", "1\n8\n", "2\n8\n"],
    }
}

// Copy 0 was voided by the old session, after call 8, and the record of 1 stands there without a
// front; a Lost page keeps its bytes. The load of the new session mends it, call 5, and is cut off
// where its record and that of 1 begin to differ. As in old_record, 1 is bare under a good front.
fn lays_bare(update: Update, faults: Faults) -> bool {
    let keeps_one = matches!(
        faults.fault,
        Fault::Fail(Fill::Old) | Fault::Fail(Fill::Half) | Fault::Fail(Fill::Lost)
    );
    matches!(update.old, Rig::Strides)
        && faults.call == 8
        && keeps_one
        && faults.later == 5
        && matches!(faults.fill, Fill::Half)
}

// The load by the new layout gives one of these texts, and one by the old layout after it the same
// number.
fn gives(
    rt: &impl Abort,
    alloc: Global,
    update: Update,
    device: &mut MemBoard,
    texts: &[&str],
) -> Result<(), Fail> {
    let mut out = MemSink::with_room(alloc, 100)?;
    let line = "state -i a.dts -g n -g m";
    let loaded = session(alloc, update.new, line, device, &mut out)?;
    answers(rt, loaded, Status::Done, line);
    assert!(rt; is_one_of(out.sent_bytes(), texts));
    let number = if out.sent_bytes().starts_with(b"2") {
        "2\n"
    } else {
        "1\n"
    };
    says(
        rt,
        alloc,
        update.old,
        "state -i a.dts -g n",
        device,
        Status::Done,
        number,
    )
}

fn is_one_of(text: &[u8], texts: &[&str]) -> bool {
    for allowed in texts {
        if text == allowed.as_bytes() {
            return true;
        }
    }
    false
}
