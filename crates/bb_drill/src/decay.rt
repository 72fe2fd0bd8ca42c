ghost use Rattle.std.specs.Prelude.{◌≡◌, ◌+◌, ◌<◌, ◌≤◌, IfOk, slice_get, unwrap_or};
ghost use Rattle.bb_flash.specs.declared.health.Health.TheVariants.{Lost};
ghost use Rattle.bb_drill.specs.Board.{board_geometry, board_state_of, with_pages};
ghost use Rattle.bb_drill.specs.Running.{Decays};

use crate::Sessions;
use bb_base::NoMemory;
use bb_flash::{Flash, Health, MemBoard};
use std::alloc::Global;

/// A copy decays: every page of its block becomes Lost. Where no other copy passes they are as
/// before, and the answer is false.
pub fn decay<S: Sessions>(
    alloc: Global,
    copy: u32,
    sessions: &mut S,
    board: &mut MemBoard,
) -> Result<bool, NoMemory>
    requires geometry { board.old.geometry ≡ board_geometry }
    requires copy { copy < 3 }
    ensures { IfOk result (Decays S.rules copy board.old board.new) }
{
    let _whole = board.geometry();
    let first = copy * 4;
    let before = pages_from(board, first);
    set_pages(board, first, LOST);
    let passes = sessions.look(alloc, board)?.is_some();
    if !passes {
        set_pages(board, first, before);
    }
    Ok(passes)
}

// The healths of the pages of a block.
#[derive(Clone, Copy, Debug)]
struct Pages {
    first: Health,
    second: Health,
    third: Health,
    last: Health,
}

const LOST: Pages = Pages {
    first: Health::Lost,
    second: Health::Lost,
    third: Health::Lost,
    last: Health::Lost,
};

fn pages_from(board: &MemBoard, page: u32) -> Pages
    requires { page < 12 }
    ensures first { result.first ≡ unwrap_or (slice_get board.now.told.image.health page) Lost }
    ensures second { result.second
        ≡ unwrap_or (slice_get board.now.told.image.health (page + 1)) Lost }
    ensures third { result.third
        ≡ unwrap_or (slice_get board.now.told.image.health (page + 2)) Lost }
    ensures last { result.last
        ≡ unwrap_or (slice_get board.now.told.image.health (page + 3)) Lost }
{
    Pages {
        first: board.health(page).unwrap_or(Health::Lost),
        second: board.health(page + 1).unwrap_or(Health::Lost),
        third: board.health(page + 2).unwrap_or(Health::Lost),
        last: board.health(page + 3).unwrap_or(Health::Lost),
    }
}

fn set_pages(board: &mut MemBoard, page: u32, pages: Pages)
    requires geometry { board.old.geometry ≡ board_geometry }
    requires inside { page + 4 ≤ 12 }
    ensures geometry { board.new.geometry ≡ board.old.geometry }
    ensures state { board_state_of board.new ≡ record (board_state_of board.old) {
      image = record board.old.told.image {
        health = with_pages page pages.first pages.second pages.third pages.last
            board.old.told.image.health;
      };
    } }
{
    board.set_health(page, pages.first);
    board.set_health(page + 1, pages.second);
    board.set_health(page + 2, pages.third);
    board.set_health(page + 3, pages.last);
}
