// The start of a boot of the small store.
ghost use Rattle.std.specs.Prelude.{◌≡◌, if◌then◌else◌};
ghost use Rattle.bb_drill.specs.Board.{board_geometry};
ghost use Rattle.bb_drill.specs.Draws.{may_start};
ghost use Rattle.test_drills.specs.Store.{StartsAtMost};

use bb_base::{NoMemory, Text, TextList};
use bb_drill::{DrillCommand, SessionEnd};
use bb_flash::{Board, MemBoard, Plan};
use std::alloc::Global;

/// A boot starts the one target, unless the number is 0.
pub fn starts(alloc: Global, board: &mut MemBoard, command: DrillCommand, number: u8) -> SessionEnd
    requires { board.old.geometry ≡ board_geometry }
    ensures { StartsAtMost (if may_start command then 1 else 0) board.old board.new }
{
    if command != DrillCommand::Boot || number == 0 {
        return SessionEnd::Whole;
    }
    let Ok(plan) = plan(alloc) else {
        return SessionEnd::NoMemory;
    };
    if board.start(&plan).is_err() {
        return SessionEnd::NoMemory;
    }
    SessionEnd::Whole
}

fn plan(alloc: Global) -> Result<Plan, NoMemory> {
    Ok(Plan {
        place: 1,
        linux: Text::of(alloc, "/zImage")?,
        initrds: TextList::none(alloc),
        options: Text::of(alloc, "")?,
        devicetree: Text::of(alloc, "")?,
    })
}
