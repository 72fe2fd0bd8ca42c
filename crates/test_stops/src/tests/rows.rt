// Sessions that set a variable or boot, over three contents of the copies on each kind of device,
// and over logs without room.
use super::each_stop::{End, Row, stops};
use super::rig::Rig;
use super::tables::Table;
use std::alloc::Global;
use std::process::Abort;
use std::test::Fail;

const NOTHING: &[Table] = &[];

const OLD: &[Table] = &[Table::Old];

const NEW: &[Table] = &[Table::New];

// A log has an older entry in front of the newest one.
const LOG_OLD: &[Table] = &[Table::Older, Table::Old];

const LOG_NEW: &[Table] = &[Table::Older, Table::New];

// The four entries for which a block has room.
const FULL: &[Table] = &[Table::Older, Table::Older, Table::Older, Table::Old];

// What copies hold that are old, old, old.
fn three_old(rig: Rig) -> [&'static [Table]; 3] {
    match rig {
        Rig::Strides | Rig::OneBlock => [OLD, OLD, OLD],
        Rig::Log => [LOG_OLD, LOG_OLD, LOG_OLD],
    }
}

// The same of new, old, none.
fn new_first(rig: Rig) -> [&'static [Table]; 3] {
    match rig {
        Rig::Strides | Rig::OneBlock => [NEW, OLD, NOTHING],
        Rig::Log => [LOG_NEW, LOG_OLD, NOTHING],
    }
}

// The same of none, old, new.
fn new_last(rig: Rig) -> [&'static [Table]; 3] {
    match rig {
        Rig::Strides | Rig::OneBlock => [NOTHING, OLD, NEW],
        Rig::Log => [NOTHING, LOG_OLD, LOG_NEW],
    }
}

// The front and the record of each copy are read; of each log four blank pages, the newest entry's
// last one, and the entry.
fn reads_of_three(rig: Rig) -> u32 {
    match rig {
        Rig::Strides | Rig::OneBlock => 6,
        Rig::Log => 18,
    }
}

// The same where a copy holds nothing: its front is read, or its eight pages.
fn reads_of_two(rig: Rig) -> u32 {
    match rig {
        Rig::Strides | Rig::OneBlock => 5,
        Rig::Log => 20,
    }
}

// A set where all copies are old. The one that was loaded is written last.
fn all_old(rig: Rig) -> Row {
    Row {
        rig,
        copies: three_old(rig),
        words: "state -i board.dts -s bootstate.last_chosen=1",
        sends: "",
        starts: 0,
        loaded: Table::Old,
        saved: Table::New,
        reads: reads_of_three(rig),
        writes: &[End::Write1, End::Write2, End::Write0],
        erases: matches!(rig, Rig::OneBlock),
    }
}

// A set over new, old, none. Copies 1 and 2 are repaired. What is then set is what was loaded.
fn new_old_none(rig: Rig) -> Row {
    Row {
        copies: new_first(rig),
        loaded: Table::New,
        reads: reads_of_two(rig),
        writes: &[End::Write1, End::Write2],
        ..all_old(rig)
    }
}

// A set over none, old, new. Copies 0 and 2 are repaired with the old table, and then all are
// written.
fn none_old_new(rig: Rig) -> Row {
    Row {
        copies: new_last(rig),
        reads: reads_of_two(rig),
        writes: &[
            End::Write0,
            End::Write2,
            End::Write1,
            End::Write2,
            End::Write0,
        ],
        ..all_old(rig)
    }
}

// A set where no entry fits after the newest one of any log.
fn without_room() -> Row {
    Row {
        copies: [FULL, FULL, FULL],
        reads: 6,
        erases: true,
        ..all_old(Rig::Log)
    }
}

// A boot in place of a set. The priority of system1 is the highest.
fn booted(row: Row) -> Row {
    Row {
        words: "boot -i board.dts -c set.txt",
        sends: "start system1 left 2 tries 1\n",
        starts: 1,
        saved: Table::Spent,
        ..row
    }
}

// A boot over new, old, none changes what was loaded, so all copies are written after the repair.
fn booted_new_old_none(rig: Rig) -> Row {
    Row {
        writes: &[
            End::Write1,
            End::Write2,
            End::Write1,
            End::Write2,
            End::Write0,
        ],
        ..booted(new_old_none(rig))
    }
}

fn both_stop(rt: &impl Abort, alloc: Global, set: Row, boot: Row) -> Result<(), Fail> {
    stops(rt, alloc, set)?;
    stops(rt, alloc, boot)
}

fn all_old_on(rt: &impl Abort, alloc: Global, rig: Rig) -> Result<(), Fail> {
    both_stop(rt, alloc, all_old(rig), booted(all_old(rig)))
}

fn new_old_none_on(rt: &impl Abort, alloc: Global, rig: Rig) -> Result<(), Fail> {
    both_stop(rt, alloc, new_old_none(rig), booted_new_old_none(rig))
}

fn none_old_new_on(rt: &impl Abort, alloc: Global, rig: Rig) -> Result<(), Fail> {
    both_stop(rt, alloc, none_old_new(rig), booted(none_old_new(rig)))
}

#[test]
fn strides_all_old(rt: HostRuntime) -> Result<(), Fail> {
    all_old_on(&rt, rt.alloc(), Rig::Strides)
}

#[test]
fn strides_new_old_none(rt: HostRuntime) -> Result<(), Fail> {
    new_old_none_on(&rt, rt.alloc(), Rig::Strides)
}

#[test]
fn strides_none_old_new(rt: HostRuntime) -> Result<(), Fail> {
    none_old_new_on(&rt, rt.alloc(), Rig::Strides)
}

#[test]
fn blocks_of_one_record_all_old(rt: HostRuntime) -> Result<(), Fail> {
    all_old_on(&rt, rt.alloc(), Rig::OneBlock)
}

#[test]
fn blocks_of_one_record_new_old_none(rt: HostRuntime) -> Result<(), Fail> {
    new_old_none_on(&rt, rt.alloc(), Rig::OneBlock)
}

#[test]
fn blocks_of_one_record_none_old_new(rt: HostRuntime) -> Result<(), Fail> {
    none_old_new_on(&rt, rt.alloc(), Rig::OneBlock)
}

#[test]
fn logs_all_old(rt: HostRuntime) -> Result<(), Fail> {
    all_old_on(&rt, rt.alloc(), Rig::Log)
}

#[test]
fn logs_new_old_none(rt: HostRuntime) -> Result<(), Fail> {
    new_old_none_on(&rt, rt.alloc(), Rig::Log)
}

#[test]
fn logs_none_old_new(rt: HostRuntime) -> Result<(), Fail> {
    none_old_new_on(&rt, rt.alloc(), Rig::Log)
}

#[test]
fn logs_without_room(rt: HostRuntime) -> Result<(), Fail> {
    both_stop(&rt, rt.alloc(), without_room(), booted(without_room()))
}
