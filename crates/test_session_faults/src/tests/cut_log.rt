// A save in logs that hold one entry each, of 1, cut off in its first program, that of copy 1: what
// stands there then, what it passes, and what the next session writes.
use super::entries::Entry::{self, LogHalf, LogOne};
use super::rig::Rig;
use super::steps::Step::{Does, Ends, Erases, Holds, Meets, Programs, Restarts};
use super::steps::plays_from;
use bb_flash::{Fault, Fill};
use bb_tool::Status;
use std::alloc::Global;
use std::process::Abort;
use std::test::Fail;

// A save that is cut off with this filling, and what copy 1 begins with then. The others begin with
// the entry of 1, and all else is blank.
#[derive(Clone, Copy)]
struct Row {
    fill: Fill,
    second: &'static [Entry],
    // The number that a load gives where copy 1 begins so and the others are blank. It is 3 where
    // copy 1 passes nothing.
    alone: &'static str,
    // How many programs the session after a restart makes, and what copy 1 begins with then.
    programs: u64,
    after: &'static [Entry],
}

// The torn page is the last one that isn't blank, so copy 1 passes nothing, though the entry of 1
// stands before it. The next entry goes after it, to pages 3 and 4.
#[test]
fn a_torn_page_stays_and_is_written_behind(rt: HostRuntime) -> Result<(), Fail> {
    let row = Row {
        fill: Fill::Half,
        second: &[LogOne, LogHalf],
        alone: "3\n",
        programs: 1,
        after: &[LogOne, LogHalf, LogOne],
    };
    is_cut_off(&rt, rt.alloc(), row)
}

#[test]
fn a_page_that_is_as_it_was_is_not_written(rt: HostRuntime) -> Result<(), Fail> {
    let row = Row {
        fill: Fill::Old,
        second: &[LogOne],
        alone: "1\n",
        programs: 0,
        after: &[LogOne],
    };
    is_cut_off(&rt, rt.alloc(), row)
}

fn is_cut_off(rt: &impl Abort, alloc: Global, row: Row) -> Result<(), Fail> {
    goes_on(rt, alloc, row)?;
    gives_alone(rt, alloc, row)
}

// Of each copy six blank pages were read, the entry's last one, and the entry. The session after a
// restart gives 1, and makes no erase.
fn goes_on(rt: &impl Abort, alloc: Global, row: Row) -> Result<(), Fail> {
    let steps = [
        Meets(24, Fault::Cut(row.fill)),
        Ends(
            "state -i a.dts -s n=2",
            Status::WriteFault,
            "fault 9 WriteFault 1\n",
        ),
        Holds(&[LogOne], row.second, &[LogOne]),
        Restarts,
        Does("state -i a.dts -g n", "1\n"),
        Programs(row.programs),
        Erases(0),
        Holds(&[LogOne], row.after, &[LogOne]),
    ];
    let copies: [&[Entry]; 3] = [&[LogOne], &[LogOne], &[LogOne]];
    plays_from(rt, alloc, Rig::Log, copies, &steps)
}

fn gives_alone(rt: &impl Abort, alloc: Global, row: Row) -> Result<(), Fail> {
    let steps = [Does("state -i a.dts -g n", row.alone)];
    plays_from(rt, alloc, Rig::Log, [&[], row.second, &[]], &steps)
}
