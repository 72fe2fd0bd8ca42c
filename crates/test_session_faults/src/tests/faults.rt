// A session that meets a fault: at each call that it makes of the device, with each filling, failed
// and cut off. The load after it gives the old or the new number and never an older one, and the
// new one where the session was done; every copy then passes it.
use super::entries::Entry;
use super::rig::{BLOCK_LEN, Rig, STRIDE_LEN, board, holds};
use super::steps::{Step, plays};
use super::{answers, sent, session};
use bb_base::MemSink;
use bb_flash::{Fault, Fill, MemBoard};
use bb_tool::Status;
use std::alloc::Global;
use std::process::Abort;
use std::test::Fail;

/// How a session ends that is cut off in a call of the device.
#[derive(Clone, Copy)]
pub enum End {
    /// It is done.
    Done,
    /// In a read.
    Read,
    /// In a write of copy 0.
    Write0,
    /// In a write of copy 1.
    Write1,
    /// In a write of copy 2.
    Write2,
}

impl End {
    // What it answers.
    fn status(self) -> Status {
        match self {
            End::Done => Status::Done,
            End::Read => Status::ReadFault,
            End::Write0 | End::Write1 | End::Write2 => Status::WriteFault,
        }
    }

    // What it sends.
    fn line(self) -> &'static str {
        match self {
            End::Done => "",
            End::Read => "fault 8 ReadFault\n",
            End::Write0 => "fault 9 WriteFault 0\n",
            End::Write1 => "fault 9 WriteFault 1\n",
            End::Write2 => "fault 9 WriteFault 2\n",
        }
    }
}

/// What the copies of a device begin with, the number that a load gives, and the calls of the
/// device in a session that sets 2: so many reads, and then erases and programs, each told by how
/// the session ends that is cut off there.
#[derive(Clone, Copy)]
pub struct Row {
    /// The device.
    pub rig: Rig,
    /// What its copies begin with.
    pub copies: [&'static [Entry]; 3],
    /// The entry of 1 there.
    pub one: Entry,
    /// The entry of 2 there.
    pub two: Entry,
    /// The number that a load gives.
    pub old: &'static str,
    /// The words of the session.
    pub words: &'static str,
    /// How often it reads.
    pub reads: u32,
    /// How often it erases.
    pub erases: u64,
    /// Its erases and programs.
    pub writes: &'static [End],
}

/// What the session of the row sets outlives each fault in it.
pub fn outlives(rt: &impl Abort, alloc: Global, row: Row) -> Result<(), Fail> {
    whole(rt, alloc, row)?;
    outlives_reads(rt, alloc, row)?;
    outlives_writes(rt, alloc, row)
}

fn outlives_reads(rt: &impl Abort, alloc: Global, row: Row) -> Result<(), Fail> {
    for call in 0..row.reads {
        each_fill(rt, alloc, row, call, End::Read, End::Read)?;
    }
    Ok(())
}

// A write that fails doesn't end the session.
fn outlives_writes(rt: &impl Abort, alloc: Global, row: Row) -> Result<(), Fail> {
    for (call, end) in (row.reads..100).zip(row.writes) {
        each_fill(rt, alloc, row, call, End::Done, *end)?;
    }
    Ok(())
}

// The session without a fault makes the calls of the row and no other.
fn whole(rt: &impl Abort, alloc: Global, row: Row) -> Result<(), Fail> {
    let mut device = board(alloc, row.rig, row.copies)?;
    let steps = [
        Step::Does(row.words, ""),
        Step::Reads(row.reads as u64),
        Step::Erases(row.erases),
        Step::Programs((row.writes.len() as u64).saturating_sub(row.erases)),
    ];
    plays(rt, alloc, row.rig, &mut device, &steps)?;
    gives(rt, alloc, row, &mut device, End::Done)
}

// How a session ends in which a call fails, and how one that is cut off there.
fn each_fill(
    rt: &impl Abort,
    alloc: Global,
    row: Row,
    call: u32,
    failed: End,
    cut: End,
) -> Result<(), Fail> {
    for fill in [Fill::Old, Fill::Half, Fill::Junk, Fill::Lost] {
        meets(rt, alloc, row, call, Fault::Fail(fill), failed)?;
        meets(rt, alloc, row, call, Fault::Cut(fill), cut)?;
    }
    Ok(())
}

// A session that meets a fault at a call, and the load after a restart.
fn meets(
    rt: &impl Abort,
    alloc: Global,
    row: Row,
    call: u32,
    fault: Fault,
    end: End,
) -> Result<(), Fail> {
    let mut device = board(alloc, row.rig, row.copies)?;
    let steps = [
        Step::Meets(call, fault),
        Step::Ends(row.words, end.status(), end.line()),
        Step::Restarts,
    ];
    plays(rt, alloc, row.rig, &mut device, &steps)?;
    has_no_luck(rt, row.rig, &device);
    gives(rt, alloc, row, &mut device, end)
}

// No copy in strides passes by luck: what begins as an entry is the one of 1, that of 2, or the
// torn front of one.
fn has_no_luck(rt: &impl Abort, rig: Rig, device: &MemBoard) {
    if matches!(rig, Rig::Strides) {
        for stride in device.bytes().chunks(STRIDE_LEN) {
            assert!(rt; is_known(stride));
        }
    }
}

fn is_known(stride: &[u8]) -> bool {
    for entry in [Entry::One, Entry::Two, Entry::Half] {
        if stride.starts_with(entry.bytes()) {
            return true;
        }
    }
    !stride.starts_with(b"\xf3")
}

// What a load gives after a session that ended so, and what all copies then pass.
fn gives(
    rt: &impl Abort,
    alloc: Global,
    row: Row,
    device: &mut MemBoard,
    end: End,
) -> Result<(), Fail> {
    if loads_two(rt, alloc, row, device)? {
        return has(rt, alloc, row.rig, device, row.two);
    }
    assert_ne!(rt; end.status(), Status::Done);
    if row.old == "1\n" {
        return has(rt, alloc, row.rig, device, row.one);
    }
    Ok(())
}

// Whether a load gives 2. Else it gives the old number.
fn loads_two(
    rt: &impl Abort,
    alloc: Global,
    row: Row,
    device: &mut MemBoard,
) -> Result<bool, Fail> {
    let mut out = MemSink::with_room(alloc, 100)?;
    let loaded = session(alloc, row.rig, "state -i a.dts -g n", device, &mut out)?;
    answers(rt, loaded, Status::Done, row.old);
    Ok(is_two(rt, &out, row.old))
}

fn is_two(rt: &impl Abort, out: &MemSink, old: &str) -> bool {
    if out.sent_bytes() == b"2\n".as_slice() {
        return true;
    }
    sent(rt, out, old);
    false
}

// Every copy in strides is this entry, and every block ends with it, up to what is blank.
fn has(
    rt: &impl Abort,
    alloc: Global,
    rig: Rig,
    device: &MemBoard,
    entry: Entry,
) -> Result<(), Fail> {
    if matches!(rig, Rig::Strides) {
        let copy = [entry];
        return holds(rt, alloc, rig, device, [&copy, &copy, &copy]);
    }
    passes(rt, device, entry.bytes());
    Ok(())
}

fn passes(rt: &impl Abort, device: &MemBoard, wanted: &[u8]) {
    for block in device.bytes().chunks(BLOCK_LEN) {
        assert!(rt; written(block).ends_with(wanted));
    }
}

// A block without the bytes 0xFF at its end.
fn written(block: &[u8]) -> &[u8] {
    match block.iter().rposition(|byte| *byte != 0xff) {
        Some(last) => &block[..=last],
        None => &[],
    }
}
