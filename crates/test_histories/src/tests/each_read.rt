// A read that fails, at each place: the lines so far are sent, and then that of the fault.
use super::items::Item::{Four, Half, One, Two};
use super::{board, says, session};
use bb_base::MemSink;
use bb_flash::{Fault, Fill, MemBoard};
use bb_tool::Status;
use std::alloc::Global;
use std::process::Abort;
use std::test::Fail;

fn device(alloc: Global) -> Result<MemBoard, Fail> {
    board(alloc, [&[One, Two], &[Half, Four], &[]])
}

// Reads that follow one another, of which `end` is the first that doesn't count, and what is sent
// where one of them fails.
#[derive(Clone, Copy)]
struct Row {
    from: u32,
    end: u32,
    sends: &'static str,
}

// A copy is read on the way back before its line is there: of copy 0 are 28 blank pages and four of
// entries, of copy 1 29, two and one that is torn, and of copy 2 32 blank ones. After a line of a
// copy the two pages of each entry are read on the way forth before its lines are there.
fn rows() -> [Row; 6] {
    [
        at_reads(0, 32, "fault 8 ReadFault\n"),
        at_reads(32, 34, "copy 0 entries 2\nfault 8 ReadFault\n"),
        at_reads(
            34,
            36,
            "copy 0 entries 2\nentry 1\nn=1\ntext=\nfault 8 ReadFault\n",
        ),
        at_reads(
            36,
            68,
            "copy 0 entries 2\nentry 1\nn=1\ntext=\nentry 2\nn=2\ntext=\nfault 8 ReadFault\n",
        ),
        at_reads(
            68,
            70,
            "copy 0 entries 2\nentry 1\nn=1\ntext=\nentry 2\nn=2\ntext=\n\
            copy 1 entries 1\nfault 8 ReadFault\n",
        ),
        at_reads(
            70,
            102,
            "copy 0 entries 2\nentry 1\nn=1\ntext=\nentry 2\nn=2\ntext=\n\
            copy 1 entries 1\nentry 1\nn=4\ntext=\nfault 8 ReadFault\n",
        ),
    ]
}

fn at_reads(from: u32, end: u32, sends: &'static str) -> Row {
    Row { from, end, sends }
}

fn fails_at(rt: &impl Abort, alloc: Global, call: u32, sends: &str) -> Result<(), Fail> {
    let mut device = device(alloc)?;
    device.plan_fault(call, Fault::Fail(Fill::Old))?;
    says(rt, alloc, &mut device, Status::ReadFault, sends.as_bytes())
}

fn fails_in(rt: &impl Abort, alloc: Global, row: Row) -> Result<(), Fail> {
    for call in row.from..row.end {
        fails_at(rt, alloc, call, row.sends)?;
    }
    Ok(())
}

#[test]
fn a_read_fails_at_each_place(rt: HostRuntime) -> Result<(), Fail> {
    for row in rows() {
        fails_in(&rt, rt.alloc(), row)?;
    }
    Ok(())
}

const WHOLE: &[u8] = b"copy 0 entries 2\nentry 1\nn=1\ntext=\nentry 2\nn=2\ntext=\n\
    copy 1 entries 1\nentry 1\nn=4\ntext=\ncopy 2 entries 0\n";

const READS: u64 = 102;

#[test]
fn no_other_read_is_made(rt: HostRuntime) -> Result<(), Fail> {
    let mut device = device(rt.alloc())?;
    let mut out = MemSink::with_room(rt.alloc(), 4000)?;
    let answer = session(rt.alloc(), &mut device, &mut out)?;
    assert_eq!(rt; answer, Status::Done);
    assert_eq!(rt; out.sent_bytes(), WHOLE);
    assert_eq!(rt; device.reads(), READS);
    Ok(())
}
