// What drills of the program's own sessions count.
use super::drawn::{Draw, count_draws, next_draw};
use bb_drill::{DrillCounts, drill};
use bb_drill_sessions::DrillSessions;
use std::alloc::Global;
use std::process::Abort;
use std::test::Fail;

const NONE: DrillCounts = DrillCounts {
    sessions: 0,
    cuts: 0,
    decays: 0,
    programs: 0,
    erases: 0,
    starts: 0,
    wrong: 0,
};

fn drill_of(alloc: Global, number: u32, count: u16) -> Result<DrillCounts, Fail> {
    Ok(drill(alloc, number, count, &mut DrillSessions)?)
}

// A session that shows the table, without a cut; no copy passes, so that none decays.
#[test]
fn a_look_at_a_fresh_board_changes_nothing(rt: HostRuntime) -> Result<(), Fail> {
    let wanted = DrillCounts {
        sessions: 1,
        ..NONE
    };
    assert_eq!(rt; drill_of(rt.alloc(), 3, 1)?, wanted);
    Ok(())
}

// Whether the session that a number draws is cut in one of the three reads of its load, which come
// before anything is written.
fn is_cut_early(number: u32) -> bool {
    let mut state = u64::from(number);
    match next_draw(&mut state).cut {
        Some(call) => call < 3,
        None => false,
    }
}

#[test]
fn a_cut_in_a_read_ends_a_session_before_it_writes(rt: HostRuntime) -> Result<(), Fail> {
    let wanted = DrillCounts {
        sessions: 1,
        cuts: 1,
        ..NONE
    };
    for number in 0..1000u32 {
        if is_cut_early(number) {
            assert_eq!(rt; drill_of(rt.alloc(), number, 1)?, wanted);
        }
    }
    Ok(())
}

// A boot and then a look, both without a cut, with a decay after the boot alone.
fn loses_a_copy_between(number: u32) -> bool {
    let mut state = u64::from(number);
    let first = next_draw(&mut state);
    let second = next_draw(&mut state);
    is_whole(first, 1) && first.decay && is_whole(second, 3) && !second.decay
}

fn is_whole(draw: Draw, command: u32) -> bool {
    draw.command == command && draw.cut.is_none()
}

// The boot writes three copies, and starts a system. One copy is lost then, and the load of the
// second session erases and writes it.
#[test]
fn a_lost_copy_is_written_anew(rt: HostRuntime) -> Result<(), Fail> {
    let wanted = DrillCounts {
        sessions: 2,
        decays: 1,
        programs: 4,
        erases: 1,
        starts: 1,
        ..NONE
    };
    let Some(number) = (0..100000u32).find(|number| loses_a_copy_between(*number)) else {
        return Err(Fail::from("no number draws it"));
    };
    assert_eq!(rt; drill_of(rt.alloc(), number, 2)?, wanted);
    Ok(())
}

#[test]
fn a_drill_counts_the_same_each_time(rt: HostRuntime) -> Result<(), Fail> {
    let first = drill_of(rt.alloc(), 1, 100)?;
    assert!(rt; first.wrong == 0);
    assert!(rt; first.cuts > 0 && first.decays > 0 && first.programs > 0 && first.starts > 0);
    assert_eq!(rt; drill_of(rt.alloc(), 1, 100)?, first);
    Ok(())
}

fn counts_at_most_the_draws(rt: &impl Abort, alloc: Global, number: u32) -> Result<(), Fail> {
    let counts = drill_of(alloc, number, 40)?;
    let draws = count_draws(number, 40);
    assert!(rt; counts.sessions == 40 && counts.wrong == 0);
    assert!(rt; counts.cuts <= draws.cuts && counts.decays <= draws.decays);
    assert!(rt; counts.starts <= draws.boots);
    Ok(())
}

#[test]
fn no_table_is_wrong(rt: HostRuntime) -> Result<(), Fail> {
    for number in [2, 3, 5, 7, 11, 13, 17, 19, 23, 4294967295] {
        counts_at_most_the_draws(&rt, rt.alloc(), number)?;
    }
    Ok(())
}
