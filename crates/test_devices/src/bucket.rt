ghost use Rattle.std.specs.Prelude.{◌≡◌, ◌≤◌, IfOk, OnOk};
ghost use Rattle.bb_flash.specs.Memory.{device_of};
ghost use Rattle.test_devices.specs.Trials.{tried_device};

mod circular;
mod one_block;
mod pages;
mod stride;

use bb_base::NoMemory;
use bb_flash::{Fault, Geometry, Health, MemBoard};
use pages::{Page, Pages};
use std::alloc::Global;
use std::process::Abort;

// How many contents there are: six kinds of page in four places.
const CONTENTS: u32 = 1296;

// Three blocks of four pages of 16 bytes. The bucket stands in the second.
fn board(alloc: Global, bytes: &[u8; 192]) -> Result<MemBoard, NoMemory>
    ensures { IfOk result (λ board. board.geometry ≡ tried_device) }
{
    let geometry = Geometry {
        page: 16,
        block: 64,
        size: 192,
    };
    MemBoard::of(alloc, geometry, bytes, 40, 400)
}

// A board with these bytes, and with the health of these pages.
fn board_with(alloc: Global, bytes: &[u8; 192], pages: Pages) -> Result<MemBoard, NoMemory>
    ensures { IfOk result (λ board. board.geometry ≡ tried_device) }
{
    let mut board = board(alloc, bytes)?;
    age(&mut board, 0, pages[0]);
    age(&mut board, 1, pages[1]);
    age(&mut board, 2, pages[2]);
    age(&mut board, 3, pages[3]);
    Ok(board)
}

fn age(board: &mut MemBoard, place: u32, page: Page)
    requires held { board.old.geometry ≡ tried_device }
    ensures held { board.new.geometry ≡ tried_device }
{
    match page {
        Page::Lost => set_health(board, place, Health::Lost),
        Page::Worn => set_health(board, place, Health::Worn),
        _ => {}
    }
}

// The health of a page of the block, counted from its start.
fn set_health(board: &mut MemBoard, place: u32, health: Health)
    requires held { board.old.geometry ≡ tried_device }
    ensures held { board.new.geometry ≡ tried_device }
{
    if place < 4 {
        board.set_health(4 + place, health);
    }
}

fn restart(board: &mut MemBoard)
    requires held { board.old.geometry ≡ tried_device }
    ensures held { board.new.geometry ≡ tried_device }
{
    board.restart();
}

// Plans a fault at a call, counted from the next one.
fn plan_from_here(board: &mut MemBoard, call: u32, fault: Fault) -> Result<(), NoMemory>
    requires few { call ≤ 1 }
    ensures held { OnOk result (board.new.geometry ≡ board.old.geometry) }
    ensures same { OnOk result (device_of board.new ≡ device_of board.old) }
{
    board.plan_fault(next_call(board) + call, fault)?;
    Ok(())
}

// The number of the next call, where only up to nine reads were made.
fn next_call(board: &MemBoard) -> u32
    ensures few { result ≤ 9 }
{
    board.reads().min(9) as u32
}

fn has_bytes(board: &MemBoard, bytes: &[u8; 192]) -> bool {
    board.bytes() == bytes.as_slice()
}

fn check(rt: &impl Abort, holds: bool, pages: Pages) {
    assert!(rt; holds, "{pages:?}");
}
