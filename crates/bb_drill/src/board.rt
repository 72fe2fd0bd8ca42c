ghost use Rattle.std.specs.Prelude.{◌≡◌, ◌+◌, ◌*◌, ◌≤◌, IfOk};
ghost use Rattle.bb_flash.specs.Memory as memory;
ghost use Rattle.bb_drill.specs.Board.{board_geometry, fresh_bytes};

use bb_base::NoMemory;
use bb_flash::{Geometry, MemBoard};
use std::alloc::Global;

// Three blocks of four pages.
const GEOMETRY: Geometry = Geometry {
    page: 64,
    block: 256,
    size: 768,
};

// How many flash calls a session may make, and how many bytes these may write.
const CALLS: u32 = 1_024;

const ROOM: u32 = 65_536;

/// A fresh board with room for this number of sessions, each of which may make a start: that takes
/// a copy of what the board holds, for good.
pub fn fresh_board(alloc: Global, sessions: u32) -> Result<MemBoard, NoMemory>
    requires { sessions ≤ 65535 }
    ensures { IfOk result (λ board. board
        ≡ memory.fresh_memory board_geometry fresh_bytes 1024 (65536 + sessions * 768)) }
{
    let blank = vec![in alloc; 0xFF; 768]?;
    MemBoard::of(alloc, GEOMETRY, &blank, CALLS, ROOM + sessions * 768)
}
