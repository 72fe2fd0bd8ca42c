// A session that is stopped at a call of the device, cut off or failed, with each filling. After a
// restart the table is that of the first copy that passes: the loaded one or the saved one, and the
// saved one where the session was done. All copies pass it once it was loaded.
use super::rig::{Rig, board, passed};
use super::steps::{Step, plays};
use super::tables::Table;
use bb_flash::{Fault, Fill, MemBoard};
use bb_tool::Status;
use std::alloc::Global;
use std::process::Abort;
use std::test::Fail;

/// How a session ends that is cut off in a call of the device.
#[derive(Clone, Copy)]
pub enum End {
    /// It is done.
    Done,
    /// In a read.
    Read,
    /// In a write of copy 0.
    Write0,
    /// In a write of copy 1.
    Write1,
    /// In a write of copy 2.
    Write2,
}

// The number of no copy.
const NO_COPY: usize = 3;

impl End {
    // What it answers.
    fn status(self) -> Status {
        match self {
            End::Done => Status::Done,
            End::Read => Status::ReadFault,
            End::Write0 | End::Write1 | End::Write2 => Status::WriteFault,
        }
    }

    // What it sends, where it sends this if it is done.
    fn line(self, done: &'static str) -> &'static str {
        match self {
            End::Done => done,
            End::Read => "fault 8 ReadFault\n",
            End::Write0 => "fault 9 WriteFault 0\n",
            End::Write1 => "fault 9 WriteFault 1\n",
            End::Write2 => "fault 9 WriteFault 2\n",
        }
    }

    // The copy that it was to write.
    fn copy(self) -> usize {
        match self {
            End::Done | End::Read => NO_COPY,
            End::Write0 => 0,
            End::Write1 => 1,
            End::Write2 => 2,
        }
    }
}

/// What a session does that meets no fault.
#[derive(Clone, Copy)]
pub struct Row {
    /// The device.
    pub rig: Rig,
    /// The tables in its copies.
    pub copies: [&'static [Table]; 3],
    /// The words of the session.
    pub words: &'static str,
    /// What it sends.
    pub sends: &'static str,
    /// How many systems it starts.
    pub starts: u32,
    /// The table that it loads.
    pub loaded: Table,
    /// The table that it leaves.
    pub saved: Table,
    /// How often it reads.
    pub reads: u32,
    /// The copies that it writes, in their order, each told by how a session ends that is cut off
    /// there.
    pub writes: &'static [End],
    /// Whether each write erases first.
    pub erases: bool,
}

/// The session of the row is stopped at each of its calls.
pub fn stops(rt: &impl Abort, alloc: Global, row: Row) -> Result<(), Fail> {
    whole(rt, alloc, row)?;
    stops_in_reads(rt, alloc, row)?;
    stops_in_writes(rt, alloc, row)
}

// The session makes the calls of the row and no other.
fn whole(rt: &impl Abort, alloc: Global, row: Row) -> Result<(), Fail> {
    let mut device = board(alloc, row.rig, row.copies)?;
    let programs = row.writes.len() as u64;
    let erases = if row.erases { programs } else { 0 };
    let steps = [
        Step::Does(row.words, row.sends),
        Step::Reads(row.reads as u64),
        Step::Erases(erases),
        Step::Programs(programs),
        Step::Restarts,
    ];
    plays(rt, alloc, row.rig, &mut device, &steps)?;
    shows(rt, alloc, row, &mut device, End::Done, NO_COPY)
}

fn stops_in_reads(rt: &impl Abort, alloc: Global, row: Row) -> Result<(), Fail> {
    for call in 0..row.reads {
        each_fill(rt, alloc, row, call, End::Read, End::Read)?;
    }
    Ok(())
}

// A write that fails doesn't end the session.
fn stops_in_writes(rt: &impl Abort, alloc: Global, row: Row) -> Result<(), Fail> {
    let mut call = row.reads;
    for end in row.writes {
        if row.erases {
            each_fill(rt, alloc, row, call, End::Done, *end)?;
            call = call.saturating_add(1);
        }
        each_fill(rt, alloc, row, call, End::Done, *end)?;
        call = call.saturating_add(1);
    }
    Ok(())
}

// How a session ends in which a call fails, and how one that is cut off there.
fn each_fill(
    rt: &impl Abort,
    alloc: Global,
    row: Row,
    call: u32,
    failed: End,
    cut: End,
) -> Result<(), Fail> {
    for fill in [Fill::Old, Fill::Half, Fill::Junk, Fill::Lost] {
        meets(rt, alloc, row, call, Fault::Fail(fill), failed)?;
        meets(rt, alloc, row, call, Fault::Cut(fill), cut)?;
    }
    Ok(())
}

// A session that meets a fault at a call, and one that shows the table after a restart.
fn meets(
    rt: &impl Abort,
    alloc: Global,
    row: Row,
    call: u32,
    fault: Fault,
    end: End,
) -> Result<(), Fail> {
    let mut device = board(alloc, row.rig, row.copies)?;
    let steps = [
        Step::Meets(call, fault),
        Step::Ends(row.words, end.status(), end.line(row.sends)),
        Step::Restarts,
    ];
    plays(rt, alloc, row.rig, &mut device, &steps)?;
    shows(rt, alloc, row, &mut device, end, lost_copy(fault, end))
}

// The copy that a fault leaves with Lost pages: one whose write was cut off. One whose write failed
// is voided.
fn lost_copy(fault: Fault, end: End) -> usize {
    match fault {
        Fault::Cut(Fill::Lost) => end.copy(),
        _ => NO_COPY,
    }
}

// The table that the device has after a session that ended so, where the copy `lost` passes
// nothing, and how many starts were made.
fn shows(
    rt: &impl Abort,
    alloc: Global,
    row: Row,
    device: &mut MemBoard,
    end: End,
    lost: usize,
) -> Result<(), Fail> {
    let table = first_passed(row.rig, device, lost)?;
    is_allowed(rt, row, end, table);
    let steps = [
        Step::Starts(starts_by(row, end)),
        Step::Does("state -i board.dts -d", table.dump()),
    ];
    plays(rt, alloc, row.rig, device, &steps)?;
    all_pass(rt, row.rig, device, table);
    Ok(())
}

// The table of the first copy that passes.
fn first_passed(rig: Rig, device: &MemBoard, lost: usize) -> Result<Table, Fail> {
    for copy in 0..3usize {
        if let Some(table) = passed_unless_lost(rig, device, copy, lost) {
            return Ok(table);
        }
    }
    Err(Fail::from("no copy passes"))
}

fn passed_unless_lost(rig: Rig, device: &MemBoard, copy: usize, lost: usize) -> Option<Table> {
    if copy == lost {
        return None;
    }
    passed(rig, device, copy)
}

fn is_allowed(rt: &impl Abort, row: Row, end: End, table: Table) {
    let allowed = match end {
        End::Done => table == row.saved,
        _ => table == row.loaded || table == row.saved,
    };
    assert!(rt; allowed);
}

fn starts_by(row: Row, end: End) -> u32 {
    match end {
        End::Done => row.starts,
        _ => 0,
    }
}

fn all_pass(rt: &impl Abort, rig: Rig, device: &MemBoard, table: Table) {
    for copy in 0..3usize {
        assert_eq!(rt; passed(rig, device, copy), Some(table));
    }
}
