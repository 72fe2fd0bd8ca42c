ghost use Rattle.std.specs.Prelude.{◌≡◌, ◌≤◌};
ghost use Rattle.bb_flash.specs.Memory.{device_of};
ghost use Rattle.bb_bucket.specs.Calls.{Agrees};
ghost use Rattle.bb_bucket.specs.OneBlock.{one_block_holding, one_block_kind};
ghost use Rattle.test_devices.specs.Trials.{tried_block, tried_device};

mod calls;
mod pages;

use super::pages::{Page, Pages, pages_of, torn_erase};
use super::{CONTENTS, board_with, check, has_bytes, plan_from_here, restart};
use bb_base::NoMemory;
use bb_bucket::OneBlock;
use bb_flash::{Fault, Fill, MemBoard};
use calls::{finds, one_block, void, write};
use pages::{after_write, image_of, torn_program};
use std::alloc::Global;
use std::process::Abort;
use std::test::Fail;

// A finished write, and then a finished void.
fn writes(rt: &impl Abort, alloc: Global, pages: Pages) -> Result<(), NoMemory> {
    let mut block = one_block(alloc)?;
    let mut board = board_with(alloc, &image_of(pages), pages)?;
    finds(rt, &mut block, &mut board, pages);
    check(rt, write(&mut block, &mut board).is_ok(), pages);
    let after = after_write();
    check(rt, has_bytes(&board, &image_of(after)), pages);
    check(rt, board.erase_count() == 1, pages);
    finds(rt, &mut block, &mut board, after);
    check(rt, void(&mut block, &mut board).is_ok(), pages);
    check(rt, has_bytes(&board, &[0xFF; 192]), pages);
    finds(rt, &mut block, &mut board, [Page::Blank; 4]);
    Ok(())
}

// A write whose call of a number fails, or is cut: what is left then, for the same bucket where the
// device goes on, and for a new one after a cut.
fn tears(
    rt: &impl Abort,
    alloc: Global,
    pages: Pages,
    call: u32,
    fault: Fault,
    after: Pages,
) -> Result<(), NoMemory>
    requires few { call ≤ 1 }
{
    let mut block = one_block(alloc)?;
    let mut board = board_with(alloc, &image_of(pages), pages)?;
    finds(rt, &mut block, &mut board, pages);
    plan_from_here(&mut board, call, fault)?;
    check(rt, write(&mut block, &mut board).is_err(), pages);
    left(rt, alloc, &mut block, &mut board, after)
}

// The same of a void.
fn tears_void(
    rt: &impl Abort,
    alloc: Global,
    pages: Pages,
    fault: Fault,
    after: Pages,
) -> Result<(), NoMemory> {
    let mut block = one_block(alloc)?;
    let mut board = board_with(alloc, &image_of(pages), pages)?;
    finds(rt, &mut block, &mut board, pages);
    plan_from_here(&mut board, 0, fault)?;
    check(rt, void(&mut block, &mut board).is_err(), pages);
    left(rt, alloc, &mut block, &mut board, after)
}

fn left(
    rt: &impl Abort,
    alloc: Global,
    failed: &mut OneBlock,
    board: &mut MemBoard,
    after: Pages,
) -> Result<(), NoMemory>
    requires here { (one_block_holding failed.old).kind ≡ one_block_kind tried_block }
    requires held { board.old.geometry ≡ tried_device }
    requires agreed { Agrees (one_block_holding failed.old) (device_of board.old) }
{
    if board.was_cut() {
        let mut fresh = one_block(alloc)?;
        restart(board);
        finds(rt, &mut fresh, board, after);
    } else {
        finds(rt, failed, board, after);
    }
    Ok(())
}

#[test]
fn each_content_is_found_written_and_voided(rt: HostRuntime) -> Result<(), Fail> {
    for number in 0..CONTENTS {
        writes(&rt, rt.alloc(), pages_of(number))?;
    }
    Ok(())
}

#[test]
fn each_call_that_fails_leaves_what_its_pages_say(rt: HostRuntime) -> Result<(), Fail> {
    for number in 0..CONTENTS {
        tears_each(&rt, rt.alloc(), pages_of(number))?;
    }
    Ok(())
}

fn tears_each(rt: &impl Abort, alloc: Global, pages: Pages) -> Result<(), NoMemory> {
    tears_with(rt, alloc, pages, Fill::Old)?;
    tears_with(rt, alloc, pages, Fill::Half)?;
    tears_with(rt, alloc, pages, Fill::Junk)?;
    tears_with(rt, alloc, pages, Fill::Lost)
}

fn tears_with(rt: &impl Abort, alloc: Global, pages: Pages, fill: Fill) -> Result<(), NoMemory> {
    tears_by(rt, alloc, pages, fill, Fault::Fail(fill))?;
    tears_by(rt, alloc, pages, fill, Fault::Cut(fill))
}

fn tears_by(
    rt: &impl Abort,
    alloc: Global,
    pages: Pages,
    fill: Fill,
    fault: Fault,
) -> Result<(), NoMemory> {
    let erased = torn_erase(pages, fill, Page::First);
    tears(rt, alloc, pages, 0, fault, erased)?;
    tears(rt, alloc, pages, 1, fault, torn_program(fill))?;
    tears_void(rt, alloc, pages, fault, erased)
}
