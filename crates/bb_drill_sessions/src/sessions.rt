ghost use Rattle.std.specs.Prelude.{◌≡◌};
ghost use Rattle.bb_drill.specs.Board.{EndsSound, IsSessionOn, NothingFailed, board_geometry};
ghost use Rattle.bb_drill.specs.Board.{board_state_of};
ghost use Rattle.bb_drill_sessions.specs.Rules.{session_rules};
ghost use Rattle.bb_drill_sessions.specs.Undisturbed.{session_runs};

use crate::end::end_of;
use crate::look::look;
use crate::made::{first_table, made};
use crate::plan::plan_of;
use bb_base::{Bytes, NoMemory};
use bb_drill::{DrillCommand, SessionEnd, Sessions};
use bb_flash::{Flash, MemBoard};
use bb_session::do_work;
use std::alloc::Global;

/// The program's own sessions over the drill's files. Each reads them anew.
#[derive(Clone, Copy, Debug)]
pub struct DrillSessions;

impl Sessions for DrillSessions {
    ghost use Rattle.std.specs.Prelude.{◌≡◌, IfOk, None, OnOk};
    ghost use Rattle.bb_drill_sessions.specs.Fresh.{finds_none_fresh};
    ghost use Rattle.bb_drill_sessions.specs.Rules.{session_rules};
    ghost use Rattle.bb_drill_sessions.specs.Undisturbed.{session_runs};

    ghost rules = { session_rules };

    ghost runs = { session_runs };

    fn defaults(&self, alloc: Global) -> Result<Bytes, NoMemory> {
        first_table(alloc)
    }

    fn look(&mut self, alloc: Global, board: &mut MemBoard) -> Result<Option<Bytes>, NoMemory> {
        look(alloc, board)
    }

    fn made(&self, alloc: Global, command: DrillCommand, table: &[u8]) -> Result<Bytes, NoMemory> {
        made(alloc, command, table)
    }

    fn session(
        &mut self,
        alloc: Global,
        board: &mut MemBoard,
        command: DrillCommand,
    ) -> SessionEnd {
        session(alloc, board, command)
    }

    ghost fresh = { finds_none_fresh };
}

// One session: its plan, and the work of it.
fn session(alloc: Global, board: &mut MemBoard, command: DrillCommand) -> SessionEnd
    requires { board.old.geometry ≡ board_geometry }
    ensures on { IsSessionOn command board.old board.new }
    ensures sound { NothingFailed board.old board.new
        → EndsSound session_rules session_runs command
        (board_state_of board.old) (board_state_of board.new) result }
{
    let Ok(plan) = plan_of(alloc, command) else {
        return SessionEnd::NoMemory;
    };
    let _whole = board.geometry();
    end_of(do_work(alloc, board, plan))
}
