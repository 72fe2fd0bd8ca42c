// A session on strides that meets a fault: at each call that it makes of the device, with each
// filling, failed and cut off.
use super::entries::Entry;
use super::faults::{End, Row, outlives};
use super::rig::Rig;
use std::alloc::Global;
use std::process::Abort;
use std::test::Fail;

// The front of each copy is read.
fn fresh() -> Row {
    Row {
        rig: Rig::Strides,
        copies: [&[], &[], &[]],
        one: Entry::One,
        two: Entry::Two,
        old: "3\n",
        words: "state -i a.dts -s n=2",
        reads: 3,
        erases: 0,
        writes: &[End::Write0, End::Write1, End::Write2],
    }
}

// A front and a record are read of each copy, and the one that was loaded is written last.
fn all_old() -> Row {
    Row {
        copies: [&[Entry::One], &[Entry::One], &[Entry::One]],
        old: "1\n",
        reads: 6,
        writes: &[End::Write1, End::Write2, End::Write0],
        ..fresh()
    }
}

// Copies 1 and 2 are mended. What is then set is what was loaded.
fn new_old_none() -> Row {
    Row {
        copies: [&[Entry::Two], &[Entry::One], &[]],
        old: "2\n",
        reads: 5,
        writes: &[End::Write1, End::Write2],
        ..fresh()
    }
}

// Where the area is written all the same, copies 1 and 2 are written twice.
fn new_old_none_written() -> Row {
    Row {
        writes: &[
            End::Write1,
            End::Write2,
            End::Write1,
            End::Write2,
            End::Write0,
        ],
        ..new_old_none()
    }
}

// Copies 0 and 1 are mended, and then all are written.
fn none_none_old() -> Row {
    Row {
        copies: [&[], &[], &[Entry::One]],
        old: "1\n",
        reads: 4,
        writes: &[
            End::Write0,
            End::Write1,
            End::Write1,
            End::Write2,
            End::Write0,
        ],
        ..fresh()
    }
}

#[test]
fn a_set_outlives_each_fault(rt: HostRuntime) -> Result<(), Fail> {
    for row in [all_old(), new_old_none(), none_none_old(), fresh()] {
        outlives(&rt, rt.alloc(), row)?;
    }
    Ok(())
}

// A session that writes 2 whatever is there.
fn writes_always(rt: &impl Abort, alloc: Global, row: Row) -> Result<(), Fail> {
    let words = "raw 0x12345678 4 -s 02000000";
    outlives(rt, alloc, Row { words, ..row })
}

#[test]
fn an_area_that_is_always_written_outlives_each_fault(rt: HostRuntime) -> Result<(), Fail> {
    for row in [all_old(), new_old_none_written(), none_none_old(), fresh()] {
        writes_always(&rt, rt.alloc(), row)?;
    }
    Ok(())
}
