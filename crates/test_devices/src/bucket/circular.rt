ghost use Rattle.std.specs.Prelude.{◌≡◌, ◌≤◌};
ghost use Rattle.bb_flash.specs.Memory.{device_of};
ghost use Rattle.bb_bucket.specs.Calls.{Agrees};
ghost use Rattle.bb_circular.specs.Circular.{circular_holding, circular_kind};
ghost use Rattle.test_devices.specs.Trials.{tried_block, tried_device};

mod calls;
mod pages;

use super::pages::{Page, Pages, pages_of, torn_erase};
use super::{CONTENTS, board_with, check, has_bytes, next_call, plan_from_here, restart};
use bb_base::NoMemory;
use bb_circular::Circular;
use bb_flash::{Fault, Fill, MemBoard};
use calls::{finds, log, must_write, void, write};
use pages::{RECORD, after_write, image_of, looked_at, torn_program, written_pages};
use std::alloc::Global;
use std::process::Abort;
use std::test::Fail;

// A finished write, and then a finished void.
fn writes(rt: &impl Abort, alloc: Global, pages: Pages) -> Result<(), NoMemory> {
    let mut log = log(alloc)?;
    let mut board = board_with(alloc, &image_of(pages), pages)?;
    finds(rt, &mut log, &mut board, pages);
    must_write(rt, &mut log, &mut board, pages);
    let after = after_write(pages);
    check(rt, has_bytes(&board, &image_of(after)), pages);
    check(rt, is_erased_if_full(&board, pages), pages);
    finds(rt, &mut log, &mut board, after);
    check(rt, void(&mut log, &mut board).is_ok(), pages);
    check(rt, has_bytes(&board, &[0xFF; 192]), pages);
    finds(rt, &mut log, &mut board, [Page::Blank; 4]);
    Ok(())
}

fn is_erased_if_full(board: &MemBoard, pages: Pages) -> bool {
    (board.erase_count() == 1) == (written_pages(pages) == 4)
}

// A write whose call of a number fails, or is cut: what is left then, for the same bucket where the
// device goes on, and for a new one after a cut.
fn tears(
    rt: &impl Abort,
    alloc: Global,
    pages: Pages,
    call: u32,
    fault: Fault,
    after: Pages,
) -> Result<(), NoMemory>
    requires few { call ≤ 1 }
{
    let mut log = log(alloc)?;
    let mut board = board_with(alloc, &image_of(pages), pages)?;
    finds(rt, &mut log, &mut board, pages);
    plan_from_here(&mut board, call, fault)?;
    check(rt, write(&mut log, &mut board, &RECORD).is_err(), pages);
    left(rt, alloc, &mut log, &mut board, after)
}

// The same of a void.
fn tears_void(
    rt: &impl Abort,
    alloc: Global,
    pages: Pages,
    fault: Fault,
    after: Pages,
) -> Result<(), NoMemory> {
    let mut log = log(alloc)?;
    let mut board = board_with(alloc, &image_of(pages), pages)?;
    finds(rt, &mut log, &mut board, pages);
    board.plan_fault(next_call(&board), fault)?;
    check(rt, void(&mut log, &mut board).is_err(), pages);
    left(rt, alloc, &mut log, &mut board, after)
}

// A write whose look at a new bucket's block fails at one of its reads, or is cut there: nothing
// changes.
fn misses(
    rt: &impl Abort,
    alloc: Global,
    pages: Pages,
    call: u32,
    fault: Fault,
) -> Result<(), NoMemory> {
    let mut log = log(alloc)?;
    let mut board = board_with(alloc, &image_of(pages), pages)?;
    board.plan_fault(call, fault)?;
    check(rt, write(&mut log, &mut board, &RECORD).is_err(), pages);
    left(rt, alloc, &mut log, &mut board, pages)
}

// What is found after a call that failed, and after one that was cut.
fn left(
    rt: &impl Abort,
    alloc: Global,
    failed: &mut Circular,
    board: &mut MemBoard,
    after: Pages,
) -> Result<(), NoMemory>
    requires here { (circular_holding failed.old).kind ≡ circular_kind tried_block }
    requires held { board.old.geometry ≡ tried_device }
    requires agreed { Agrees (circular_holding failed.old) (device_of board.old) }
{
    if board.was_cut() {
        let mut fresh = log(alloc)?;
        restart(board);
        finds(rt, &mut fresh, board, after);
    } else {
        finds(rt, failed, board, after);
    }
    Ok(())
}

#[test]
fn each_content_is_found_written_and_voided(rt: HostRuntime) -> Result<(), Fail> {
    for number in 0..CONTENTS {
        writes(&rt, rt.alloc(), pages_of(number))?;
    }
    Ok(())
}

#[test]
fn each_read_that_fails_changes_nothing(rt: HostRuntime) -> Result<(), Fail> {
    for number in 0..CONTENTS {
        misses_each(&rt, rt.alloc(), pages_of(number))?;
    }
    Ok(())
}

fn misses_each(rt: &impl Abort, alloc: Global, pages: Pages) -> Result<(), NoMemory> {
    for call in 0..looked_at(pages) {
        misses(rt, alloc, pages, call, Fault::Fail(Fill::Junk))?;
        misses(rt, alloc, pages, call, Fault::Cut(Fill::Junk))?;
    }
    Ok(())
}

// Four records fill the block, so of eight the first erases it where it is full, and then each
// fourth.
#[test]
fn eight_records_erase_a_block_of_four_once_or_twice(rt: HostRuntime) -> Result<(), Fail> {
    for number in 0..CONTENTS {
        writes_eight(&rt, rt.alloc(), pages_of(number))?;
    }
    Ok(())
}

fn writes_eight(rt: &impl Abort, alloc: Global, pages: Pages) -> Result<(), NoMemory> {
    let mut log = log(alloc)?;
    let mut board = board_with(alloc, &image_of(pages), pages)?;
    writes_four(rt, &mut log, &mut board, pages);
    writes_four(rt, &mut log, &mut board, pages);
    let erased = if written_pages(pages) == 0 { 1 } else { 2 };
    check(rt, board.erase_count() == erased, pages);
    Ok(())
}

fn writes_four(rt: &impl Abort, log: &mut Circular, board: &mut MemBoard, pages: Pages)
    requires here { (circular_holding log.old).kind ≡ circular_kind tried_block }
    requires held { board.old.geometry ≡ tried_device }
    requires agreed { Agrees (circular_holding log.old) (device_of board.old) }
    ensures here { (circular_holding log.new).kind ≡ circular_kind tried_block }
    ensures held { board.new.geometry ≡ tried_device }
    ensures agreed { Agrees (circular_holding log.new) (device_of board.new) }
{
    must_write(rt, log, board, pages);
    must_write(rt, log, board, pages);
    must_write(rt, log, board, pages);
    must_write(rt, log, board, pages);
}

#[test]
fn each_call_that_fails_leaves_what_its_pages_say(rt: HostRuntime) -> Result<(), Fail> {
    for number in 0..CONTENTS {
        tears_each(&rt, rt.alloc(), pages_of(number))?;
    }
    Ok(())
}

fn tears_each(rt: &impl Abort, alloc: Global, pages: Pages) -> Result<(), NoMemory> {
    tears_with(rt, alloc, pages, Fill::Old)?;
    tears_with(rt, alloc, pages, Fill::Half)?;
    tears_with(rt, alloc, pages, Fill::Junk)?;
    tears_with(rt, alloc, pages, Fill::Lost)
}

fn tears_with(rt: &impl Abort, alloc: Global, pages: Pages, fill: Fill) -> Result<(), NoMemory> {
    tears_by(rt, alloc, pages, fill, Fault::Fail(fill))?;
    tears_by(rt, alloc, pages, fill, Fault::Cut(fill))
}

fn tears_by(
    rt: &impl Abort,
    alloc: Global,
    pages: Pages,
    fill: Fill,
    fault: Fault,
) -> Result<(), NoMemory> {
    let erased = torn_erase(pages, fill, Page::Last);
    if written_pages(pages) < 4 {
        tears(rt, alloc, pages, 0, fault, torn_program(pages, fill))?;
    } else {
        let blank = [Page::Blank; 4];
        tears(rt, alloc, pages, 0, fault, erased)?;
        tears(rt, alloc, pages, 1, fault, torn_program(blank, fill))?;
    }
    tears_void(rt, alloc, pages, fault, erased)
}
