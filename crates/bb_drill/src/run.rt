ghost use Rattle.std.specs.Prelude.{◌≡◌, ◌-◌, ◌^◌, ◌≤◌, [], ◌∷◌, IfOk, length, min};
ghost use Rattle.std.specs.List.{sum};
ghost use Rattle.bb_drill.specs.Board.{board_geometry, fresh_state, board_state_of};
ghost use Rattle.bb_drill.specs.Draws.{draws_of};
ghost use Rattle.bb_drill.specs.Drill.{CountsDraws};
ghost use Rattle.bb_drill.specs.Running.{IsCalm, RunsSoFar};
ghost use Rattle.bb_drill.specs.Tables.{table_given};

use crate::allowed::Allowed;
use crate::board::fresh_board;
use crate::draws::draw_sessions;
use crate::session::run_drawn;
use crate::tally::Tally;
use crate::{DrawnSession, DrillCounts, Sessions};
use bb_base::NoMemory;
use bb_flash::MemBoard;
use std::alloc::Global;

/// Runs so many sessions on a fresh board in memory, with the cuts and decays that are drawn from a
/// number, and counts. Before each session the table that its load gives is compared with those
/// that it may give. NoMemory where a session answers so, and where the board has no room any more.
pub fn drill<S: Sessions>(
    alloc: Global,
    number: u32,
    count: u16,
    sessions: &mut S,
) -> Result<DrillCounts, NoMemory>
    ensures { IfOk result (CountsDraws S.runs (draws_of number count)) }
{
    let drawn = draw_sessions(alloc, number, count)?;
    run_in_order(alloc, &drawn, sessions)
}

fn run_in_order<S: Sessions>(
    alloc: Global,
    drawn: &[DrawnSession],
    sessions: &mut S,
) -> Result<DrillCounts, NoMemory>
    requires { length drawn.now ≤ 65535 }
    ensures { IfOk result (CountsDraws S.runs drawn.now) }
{
    let mut board = fresh_board(alloc, drawn.len() as u32)?;
    let mut allowed = Allowed::only(alloc, sessions.defaults(alloc)?)?;
    let tally = run_each(alloc, drawn, sessions, &mut board, &mut allowed)?;
    Ok(counts(drawn.len() as u32, tally, &board))
}

// Runs these sessions on a fresh board.
fn run_each<S: Sessions>(
    alloc: Global,
    drawn: &[DrawnSession],
    sessions: &mut S,
    board: &mut MemBoard,
    allowed: &mut Allowed,
) -> Result<Tally, NoMemory>
    requires few { length drawn.now ≤ 65535 }
    requires geometry { board.old.geometry ≡ board_geometry }
    requires fresh { board_state_of board.old ≡ fresh_state }
    requires calm { IsCalm board.old }
    requires allowed { allowed.old ≡ table_given S.rules board.old.told.image ∷ [] }
    ensures { IfOk result (λ tally.
        RunsSoFar S.rules S.runs drawn.now [] (length drawn.now) board.new tally allowed.new) }
{
    let mut tally = Tally::none();
    for session in drawn {
        let met = run_drawn(alloc, *session, sessions, board, allowed)?;
        tally = tally.with(met);
    }
    Ok(tally)
}

fn counts(sessions: u32, tally: Tally, board: &MemBoard) -> DrillCounts
    ensures sessions { result.sessions ≡ sessions }
    ensures cuts { result.cuts ≡ tally.cuts }
    ensures decays { result.decays ≡ tally.decays }
    ensures programs { result.programs ≡ board.now.programs }
    ensures erases { result.erases ≡ min (sum board.now.told.erases) (2 ^ 64 - 1) }
    ensures starts { result.starts ≡ length board.now.told.starts }
    ensures wrong { result.wrong ≡ tally.wrong }
{
    DrillCounts {
        sessions,
        cuts: tally.cuts,
        decays: tally.decays,
        programs: board.programs(),
        erases: total(board.erases()),
        starts: board.start_count(),
        wrong: tally.wrong,
    }
}

// The sum, but at most 2^64 - 1.
fn total(numbers: &[u64]) -> u64
    ensures { result ≡ min (sum numbers.now) (2 ^ 64 - 1) }
{
    let mut total: u64 = 0;
    for number in numbers {
        total = total.saturating_add(*number);
    }
    total
}
