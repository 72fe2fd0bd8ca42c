ghost use Rattle.std.specs.Prelude.{◌≡◌, ◌++◌, IfOk, OnOk};
ghost use Rattle.bb_drill.specs.Board.{OnlyLooks, board_geometry};
ghost use Rattle.bb_drill.specs.Running.{IsDecayed, IsMet, IsTriedSession, plan_of};
ghost use Rattle.bb_drill.specs.Tables.{table_given};

use crate::allowed::Allowed;
use crate::decay::decay;
use crate::met::Met;
use crate::{DrawnSession, PlannedCut, SessionEnd, Sessions};
use bb_base::{Bytes, NoMemory};
use bb_flash::{Fault, MemBoard};
use std::alloc::Global;

/// Runs a session as it was drawn, with its cut and the decay after it. NoMemory comes too where a
/// flash call or a start failed although no cut was reached: the board has no room any more.
pub fn run_drawn<S: Sessions>(
    alloc: Global,
    drawn: DrawnSession,
    sessions: &mut S,
    board: &mut MemBoard,
    allowed: &mut Allowed,
) -> Result<Met, NoMemory>
    requires { board.old.geometry ≡ board_geometry }
    ensures { IfOk result (IsMet S.rules S.runs drawn board.old board.new allowed.old allowed.new) }
{
    let table = table_on(alloc, sessions, board)?;
    let wrong = !allowed.has(table.as_slice());
    let made = sessions.made(alloc, drawn.command, table.as_slice())?;
    let (end, cut) = try_session(alloc, drawn, sessions, board)?;
    allowed.follow(end, made)?;
    let decay = decay_drawn(alloc, drawn.decay, sessions, board)?;
    Ok(Met { wrong, cut, decay })
}

// The table that a load gives on the board as it stands.
fn table_on<S: Sessions>(
    alloc: Global,
    sessions: &mut S,
    board: &mut MemBoard,
) -> Result<Bytes, NoMemory>
    requires { board.old.geometry ≡ board_geometry }
    ensures table { IfOk result (λ table. table ≡ table_given S.rules board.old.told.image) }
    ensures only { OnlyLooks board.old board.new }
    ensures calm { OnOk result (board.new.faults ≡ board.old.faults) }
{
    match sessions.look(alloc, board)? {
        Some(table) => Ok(table),
        None => sessions.defaults(alloc),
    }
}

// Runs a session with its cut, and restarts the board before it and after it, so that the calls
// count from the session's first. The answer is how it ended, and whether its cut was reached.
fn try_session<S: Sessions>(
    alloc: Global,
    drawn: DrawnSession,
    sessions: &mut S,
    board: &mut MemBoard,
) -> Result<(SessionEnd, bool), NoMemory>
    requires { board.old.geometry ≡ board_geometry }
    ensures { IfOk result (λ tried.
        IsTriedSession S.rules S.runs drawn board.old board.new tried.0 tried.1) }
{
    board.restart();
    plan_cut(board, drawn.cut)?;
    let faults = board.faults();
    let start_faults = board.start_faults();
    let end = sessions.session(alloc, board, drawn.command);
    let cut = drawn.cut.is_some() && board.was_cut();
    if !cut && (faults < board.faults() || start_faults < board.start_faults()) {
        return Err(NoMemory);
    }
    board.restart();
    Ok((end, cut))
}

fn plan_cut(board: &mut MemBoard, cut: Option<PlannedCut>) -> Result<(), NoMemory>
    ensures { OnOk result (board.new
        ≡ record board.old { plan = plan_of cut ++ board.old.plan }) }
{
    match cut {
        Some(cut) => board.plan_fault(cut.call, Fault::Cut(cut.fill)),
        None => Ok(()),
    }
}

fn decay_drawn<S: Sessions>(
    alloc: Global,
    copy: Option<u32>,
    sessions: &mut S,
    board: &mut MemBoard,
) -> Result<bool, NoMemory>
    requires { board.old.geometry ≡ board_geometry }
    ensures { IfOk result (IsDecayed S.rules copy board.old board.new) }
{
    match copy {
        Some(copy) if copy < 3 => decay(alloc, copy, sessions, board),
        _ => Ok(false),
    }
}
