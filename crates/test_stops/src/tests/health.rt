// A page of the first copy's entry that is worn or lost: its copy is written anew, in a log after
// the entry, and the table stays.
use super::rig::Rig;
use super::steps::Step::{Does, Erases, Holds, Programs, Restarts, Turns};
use super::steps::plays_from;
use super::tables::Table::Old;
use bb_flash::Health;
use std::alloc::Global;
use std::process::Abort;
use std::test::Fail;

// A session without action makes one program after one save, of 64 bytes at 64.
fn is_written_anew(rt: &impl Abort, alloc: Global, health: Health) -> Result<(), Fail> {
    let steps = [
        Does("state -i board.dts -s bootstate.system1.priority=30", ""),
        Holds(&[Old], &[Old], &[Old]),
        Programs(3),
        Restarts,
        Turns(0, health),
        Does("state -i board.dts", ""),
        Holds(&[Old, Old], &[Old], &[Old]),
        Programs(4),
        Does("state -i board.dts -d", Old.dump()),
        Programs(4),
        Erases(0),
    ];
    plays_from(rt, alloc, Rig::Log, [&[], &[], &[]], &steps)
}

#[test]
fn a_worn_page_0(rt: HostRuntime) -> Result<(), Fail> {
    is_written_anew(&rt, rt.alloc(), Health::Worn)
}

#[test]
fn a_lost_page_0(rt: HostRuntime) -> Result<(), Fail> {
    is_written_anew(&rt, rt.alloc(), Health::Lost)
}
