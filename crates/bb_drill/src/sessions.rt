use crate::DrillCommand;
use bb_base::{Bytes, NoMemory};
use bb_flash::MemBoard;
use std::alloc::Global;

/// How a session ended, as far as a drill has to know it.
#[derive(Clone, Copy, Debug, PartialEq, Eq)]
pub enum SessionEnd {
    /// Its load gave a table, and each save that it began was acknowledged.
    Whole,
    /// Its load couldn't read the board, so that it began no save.
    Unread,
    /// Its load or its save couldn't write the board: the save, if it was begun, wasn't
    /// acknowledged.
    Unwritten,
    /// Memory was refused.
    NoMemory,
}

/// The program that a drill tries. It keeps one table on a board, in a copy in each of three
/// blocks. A session saves one table at most.
pub trait Sessions {
    ghost use Rattle.std.specs.Prelude.{◌≡◌, IfOk, None, OnOk};
    ghost use Rattle.bb_drill.specs.Board.{BoardState, EndsSound, IsSessionOn, NothingFailed};
    ghost use Rattle.bb_drill.specs.Board.{OnlyLooks, board_geometry, fresh_image, board_state_of};
    ghost use Rattle.bb_drill.specs.Tables.{TableRules};
    ghost use Rattle.bb_drill.specs.declared.command.DrillCommand.{DrillCommand};

    /// What it takes for the table on a board, and what its sessions make of one.
    ghost rules: { TableRules };

    /// A session in which nothing fails: its command, and the board before and after it.
    ghost runs: { DrillCommand → BoardState → BoardState → Type 0 };

    /// The table where no copy passes.
    fn defaults(&self, alloc: Global) -> Result<Bytes, NoMemory>
        ensures { IfOk result (λ table. table ≡ rules.defaults) };

    /// The table of the first copy that passes on the board as it stands, `None` exactly where none
    /// passes. It only reads the board; NoMemory comes too where a read failed, which counts.
    fn look(&mut self, alloc: Global, board: &mut MemBoard) -> Result<Option<Bytes>, NoMemory>
        requires { board.old.geometry ≡ board_geometry }
        ensures found { IfOk result (λ found. found ≡ rules.found board.old.told.image) }
        ensures only { OnlyLooks board.old board.new }
        ensures calm { OnOk result (board.new.faults ≡ board.old.faults) };

    /// The table that a session saves or keeps whose load gave this one.
    fn made(&self, alloc: Global, command: DrillCommand, table: &[u8]) -> Result<Bytes, NoMemory>
        ensures { IfOk result (λ made. made ≡ rules.made command table.now) };

    /// Runs one session.
    fn session(&mut self, alloc: Global, board: &mut MemBoard, command: DrillCommand) -> SessionEnd
        requires { board.old.geometry ≡ board_geometry }
        ensures on { IsSessionOn command board.old board.new }
        ensures sound { NothingFailed board.old board.new
            → EndsSound rules runs command (board_state_of board.old) (board_state_of board.new)
            result };

    /// No copy passes on a fresh board.
    ghost fresh: { rules.found fresh_image ≡ None };
}
