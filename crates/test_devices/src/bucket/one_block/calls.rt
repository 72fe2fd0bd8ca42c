ghost use Rattle.std.specs.Prelude.{◌≡◌, None, IfOk};
ghost use Rattle.bb_flash.specs.Memory.{device_of};
ghost use Rattle.bb_bucket.specs.Calls.{Agrees};
ghost use Rattle.bb_bucket.specs.OneBlock.{one_block_holding, one_block_kind};
ghost use Rattle.test_devices.specs.Trials.{tried_block, tried_device};

use super::pages::{RECORD, found_in, is_record};
use crate::bucket::check;
use crate::bucket::pages::Pages;
use bb_base::{Failed, NoMemory};
use bb_bucket::{Bucket, Found, OneBlock};
use bb_flash::{MemBoard, Region};
use std::alloc::Global;
use std::process::Abort;

pub(super) fn one_block(alloc: Global) -> Result<OneBlock, NoMemory>
    ensures { IfOk result (λ block.
        block ≡ record { block = tried_block; most = 56; sight = None }) }
{
    OneBlock::of(alloc, Region { at: 64, size: 64 }, 16, 56)
}

fn read(block: &mut OneBlock, board: &mut MemBoard, out: &mut [u8; 56]) -> Result<Found, Failed>
    requires here { (one_block_holding block.old).kind ≡ one_block_kind tried_block }
    requires held { board.old.geometry ≡ tried_device }
    requires agreed { Agrees (one_block_holding block.old) (device_of board.old) }
    ensures here { (one_block_holding block.new).kind ≡ one_block_kind tried_block }
    ensures held { board.new.geometry ≡ tried_device }
    ensures agreed { Agrees (one_block_holding block.new) (device_of board.new) }
{
    block.read(board, out)
}

pub(super) fn write(block: &mut OneBlock, board: &mut MemBoard) -> Result<(), Failed>
    requires here { (one_block_holding block.old).kind ≡ one_block_kind tried_block }
    requires held { board.old.geometry ≡ tried_device }
    requires agreed { Agrees (one_block_holding block.old) (device_of board.old) }
    ensures here { (one_block_holding block.new).kind ≡ one_block_kind tried_block }
    ensures held { board.new.geometry ≡ tried_device }
    ensures agreed { Agrees (one_block_holding block.new) (device_of board.new) }
{
    block.write(board, &RECORD)
}

pub(super) fn void(block: &mut OneBlock, board: &mut MemBoard) -> Result<(), Failed>
    requires here { (one_block_holding block.old).kind ≡ one_block_kind tried_block }
    requires held { board.old.geometry ≡ tried_device }
    requires agreed { Agrees (one_block_holding block.old) (device_of board.old) }
    ensures here { (one_block_holding block.new).kind ≡ one_block_kind tried_block }
    ensures held { board.new.geometry ≡ tried_device }
    ensures agreed { Agrees (one_block_holding block.new) (device_of board.new) }
{
    block.void(board)
}

// The bucket finds what stands in these pages.
pub(super) fn finds(rt: &impl Abort, block: &mut OneBlock, board: &mut MemBoard, pages: Pages)
    requires here { (one_block_holding block.old).kind ≡ one_block_kind tried_block }
    requires held { board.old.geometry ≡ tried_device }
    requires agreed { Agrees (one_block_holding block.old) (device_of board.old) }
    ensures here { (one_block_holding block.new).kind ≡ one_block_kind tried_block }
    ensures held { board.new.geometry ≡ tried_device }
    ensures agreed { Agrees (one_block_holding block.new) (device_of board.new) }
{
    let mut out = [0; 56];
    let answer = read(block, board, &mut out);
    check(rt, is_answer(answer, pages), pages);
    check(rt, is_record(&out, pages), pages);
}

fn is_answer(answer: Result<Found, Failed>, pages: Pages) -> bool {
    answer == Ok(found_in(pages))
}
