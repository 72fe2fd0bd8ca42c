// What is drawn, against draws that are computed here.
ghost use Rattle.std.specs.Prelude.{◌<◌};

use bb_drill::{DrawnSession, DrillCommand, PlannedCut, draw_sessions};
use bb_flash::Fill;
use std::alloc::Global;
use std::process::Abort;
use std::test::Fail;

fn next(state: &mut u64, n: u32) -> u32
    requires { 0 < n }
{
    *state = state
        .wrapping_mul(6364136223846793005)
        .wrapping_add(1442695040888963407);
    ((*state >> 33) % u64::from(n)) as u32
}

fn next_session(state: &mut u64) -> DrawnSession {
    let command = next_command(state);
    let cut = next_cut(state);
    let decay = if next(state, 8) == 0 {
        Some(next(state, 3))
    } else {
        None
    };
    DrawnSession {
        command,
        cut,
        decay,
    }
}

fn next_command(state: &mut u64) -> DrillCommand {
    match next(state, 4) {
        0 => DrillCommand::Priority(next(state, 100)),
        1 => DrillCommand::Boot,
        2 => DrillCommand::MarkGood,
        _ => DrillCommand::Show,
    }
}

fn next_cut(state: &mut u64) -> Option<PlannedCut> {
    if next(state, 3) != 0 {
        return None;
    }
    let call = next(state, 40);
    let fill = match next(state, 4) {
        0 => Fill::Old,
        1 => Fill::Half,
        2 => Fill::Junk,
        _ => Fill::Lost,
    };
    Some(PlannedCut { call, fill })
}

#[test]
fn the_draws_are_those_of_the_number(rt: HostRuntime) -> Result<(), Fail> {
    for number in [0, 1, 2, 3, 221, 999, 4294967295] {
        are_drawn(&rt, rt.alloc(), number, 40)?;
    }
    Ok(())
}

fn are_drawn(rt: &impl Abort, alloc: Global, number: u32, count: u16) -> Result<(), Fail> {
    let drawn = draw_sessions(alloc, number, count)?;
    assert_eq!(rt; drawn.len(), usize::from(count));
    let mut state = u64::from(number);
    for session in &drawn {
        assert_eq!(rt; *session, next_session(&mut state));
    }
    Ok(())
}

// How many cuts, decays and boots are drawn.
#[test]
fn a_thousand_sessions_are_drawn(rt: HostRuntime) -> Result<(), Fail> {
    let drawn = draw_sessions(rt.alloc(), 1, 1000)?;
    assert_eq!(rt;
        drawn.iter().filter(|session| session.cut.is_some()).count(),
        335
    );
    assert_eq!(rt;
        drawn
            .iter()
            .filter(|session| session.decay.is_some())
            .count(),
        130
    );
    assert_eq!(rt;
        drawn
            .iter()
            .filter(|session| session.command == DrillCommand::Boot)
            .count(),
        247
    );
    Ok(())
}
