// What drills of the small store count. The counts of the long ones come from a model of the store,
// the board and the drill that was written apart.
use super::store::Store;
use bb_drill::{DrillCounts, drill};
use std::alloc::Global;
use std::process::Abort;
use std::test::Fail;

const NONE: DrillCounts = DrillCounts {
    sessions: 0,
    cuts: 0,
    decays: 0,
    programs: 0,
    erases: 0,
    starts: 0,
    wrong: 0,
};

fn counts(
    rt: &impl Abort,
    alloc: Global,
    number: u32,
    count: u16,
    wanted: DrillCounts,
) -> Result<(), Fail> {
    let mut store = Store { wrong: false };
    assert_eq!(rt; drill(alloc, number, count, &mut store)?, wanted);
    Ok(())
}

#[test]
fn a_drill_without_sessions_counts_nothing(rt: HostRuntime) -> Result<(), Fail> {
    counts(&rt, rt.alloc(), 7, 0, NONE)
}

// A session that shows the table, without a cut; no copy passes, so that none decays.
#[test]
fn a_look_at_a_fresh_board_changes_nothing(rt: HostRuntime) -> Result<(), Fail> {
    let wanted = DrillCounts {
        sessions: 1,
        ..NONE
    };
    counts(&rt, rt.alloc(), 3, 1, wanted)
}

// All numbers below 1,000 whose first session is cut in one of the three reads of its load.
#[test]
fn a_cut_in_a_read_ends_a_session_before_it_writes(rt: HostRuntime) -> Result<(), Fail> {
    let wanted = DrillCounts {
        sessions: 1,
        cuts: 1,
        ..NONE
    };
    for number in [
        16, 37, 60, 108, 124, 131, 152, 175, 196, 219, 236, 553, 876, 892, 956,
    ] {
        counts(&rt, rt.alloc(), number, 1, wanted)?;
    }
    Ok(())
}

// A boot writes three copies, one of which is lost after it; the next session writes it anew.
#[test]
fn a_lost_copy_is_written_anew(rt: HostRuntime) -> Result<(), Fail> {
    let wanted = DrillCounts {
        sessions: 2,
        decays: 1,
        programs: 4,
        erases: 1,
        starts: 1,
        ..NONE
    };
    counts(&rt, rt.alloc(), 221, 2, wanted)
}

// Two boots and a session that marks the target good save each copy three times.
#[test]
fn sessions_without_cuts_count_their_saves(rt: HostRuntime) -> Result<(), Fail> {
    let wanted = DrillCounts {
        sessions: 4,
        programs: 9,
        erases: 6,
        starts: 2,
        ..NONE
    };
    counts(&rt, rt.alloc(), 34, 4, wanted)
}

#[test]
fn no_table_of_a_thousand_sessions_is_wrong(rt: HostRuntime) -> Result<(), Fail> {
    let wanted = DrillCounts {
        sessions: 1000,
        cuts: 99,
        decays: 130,
        programs: 2035,
        erases: 2043,
        starts: 215,
        wrong: 0,
    };
    counts(&rt, rt.alloc(), 1, 1000, wanted)
}

// A store that saves one copy alone loses tables, and gives older ones.
#[test]
fn a_store_that_is_made_wrong_is_found_out(rt: HostRuntime) -> Result<(), Fail> {
    let wanted = DrillCounts {
        sessions: 1000,
        cuts: 94,
        decays: 130,
        programs: 1846,
        erases: 1856,
        starts: 220,
        wrong: 28,
    };
    let mut store = Store { wrong: true };
    assert_eq!(rt; drill(rt.alloc(), 1, 1000, &mut store)?, wanted);
    Ok(())
}
