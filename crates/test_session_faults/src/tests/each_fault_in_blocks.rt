// A session on erase blocks that meets a fault: at each call that it makes of the device, with each
// filling, failed and cut off.
use super::entries::Entry;
use super::faults::{End, Row, outlives};
use super::rig::Rig;
use std::test::Fail;

// The front of each copy is read. Each write is an erase and a program.
fn one_block_fresh() -> Row {
    Row {
        rig: Rig::OneBlock,
        copies: [&[], &[], &[]],
        one: Entry::BlockOne,
        two: Entry::BlockTwo,
        old: "3\n",
        words: "state -i a.dts -s n=2",
        reads: 3,
        erases: 3,
        writes: &[
            End::Write0,
            End::Write0,
            End::Write1,
            End::Write1,
            End::Write2,
            End::Write2,
        ],
    }
}

// A front and a record are read of each copy.
fn one_block_all_old() -> Row {
    Row {
        copies: [&[Entry::BlockOne], &[Entry::BlockOne], &[Entry::BlockOne]],
        old: "1\n",
        reads: 6,
        writes: &[
            End::Write1,
            End::Write1,
            End::Write2,
            End::Write2,
            End::Write0,
            End::Write0,
        ],
        ..one_block_fresh()
    }
}

// Copies 1 and 2 are mended. What is then set is what was loaded.
fn one_block_new_old_none() -> Row {
    Row {
        copies: [&[Entry::BlockTwo], &[Entry::BlockOne], &[]],
        old: "2\n",
        reads: 5,
        erases: 2,
        writes: &[End::Write1, End::Write1, End::Write2, End::Write2],
        ..one_block_fresh()
    }
}

// Copies 0 and 1 are mended, and then all are written.
fn one_block_none_none_old() -> Row {
    Row {
        copies: [&[], &[], &[Entry::BlockOne]],
        old: "1\n",
        reads: 4,
        erases: 5,
        writes: &[
            End::Write0,
            End::Write0,
            End::Write1,
            End::Write1,
            End::Write1,
            End::Write1,
            End::Write2,
            End::Write2,
            End::Write0,
            End::Write0,
        ],
        ..one_block_fresh()
    }
}

// Of each copy eight blank pages are read. Each write is a program.
fn log_fresh() -> Row {
    Row {
        rig: Rig::Log,
        copies: [&[], &[], &[]],
        one: Entry::LogOne,
        two: Entry::LogTwo,
        old: "3\n",
        words: "state -i a.dts -s n=2",
        reads: 24,
        erases: 0,
        writes: &[End::Write0, End::Write1, End::Write2],
    }
}

// Of each copy four blank pages are read, the newest entry's last one, and the entry. Each write is
// a program after it.
fn log_all_old() -> Row {
    Row {
        copies: [
            &[Entry::LogFour, Entry::LogOne],
            &[Entry::LogFour, Entry::LogOne],
            &[Entry::LogFour, Entry::LogOne],
        ],
        old: "1\n",
        reads: 18,
        writes: &[End::Write1, End::Write2, End::Write0],
        ..log_fresh()
    }
}

// The eight pages of copy 2 are blank.
fn log_new_old_none() -> Row {
    Row {
        copies: [
            &[Entry::LogFour, Entry::LogTwo],
            &[Entry::LogFour, Entry::LogOne],
            &[],
        ],
        old: "2\n",
        reads: 20,
        writes: &[End::Write1, End::Write2],
        ..log_fresh()
    }
}

fn log_none_none_old() -> Row {
    Row {
        copies: [&[], &[], &[Entry::LogFour, Entry::LogOne]],
        old: "1\n",
        reads: 22,
        writes: &[
            End::Write0,
            End::Write1,
            End::Write1,
            End::Write2,
            End::Write0,
        ],
        ..log_fresh()
    }
}

// The four entries for which a block has room.
const FULL: &[Entry] = &[
    Entry::LogFour,
    Entry::LogFour,
    Entry::LogFour,
    Entry::LogOne,
];

// No entry fits after the newest one: each write is an erase and a program.
fn log_full() -> Row {
    Row {
        copies: [FULL, FULL, FULL],
        old: "1\n",
        reads: 6,
        erases: 3,
        writes: &[
            End::Write1,
            End::Write1,
            End::Write2,
            End::Write2,
            End::Write0,
            End::Write0,
        ],
        ..log_fresh()
    }
}

#[test]
fn a_set_in_blocks_of_one_record_outlives_each_fault(rt: HostRuntime) -> Result<(), Fail> {
    for row in [
        one_block_all_old(),
        one_block_new_old_none(),
        one_block_none_none_old(),
        one_block_fresh(),
    ] {
        outlives(&rt, rt.alloc(), row)?;
    }
    Ok(())
}

#[test]
fn a_set_in_logs_outlives_each_fault(rt: HostRuntime) -> Result<(), Fail> {
    for row in [
        log_all_old(),
        log_new_old_none(),
        log_none_none_old(),
        log_fresh(),
        log_full(),
    ] {
        outlives(&rt, rt.alloc(), row)?;
    }
    Ok(())
}
