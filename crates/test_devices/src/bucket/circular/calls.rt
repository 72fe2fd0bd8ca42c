ghost use Rattle.std.specs.Prelude.{◌≡◌, ◌≤◌, None, IfOk, OnOk, length};
ghost use Rattle.bb_flash.specs.Memory.{device_of};
ghost use Rattle.bb_bucket.specs.Calls.{Agrees};
ghost use Rattle.bb_circular.specs.Circular.{circular_holding, circular_kind};
ghost use Rattle.bb_circular.specs.Wear.{IsWritten};
ghost use Rattle.test_devices.specs.Trials.{tried_block, tried_device};

use super::pages::{RECORD, found_in, is_record};
use crate::bucket::check;
use crate::bucket::pages::Pages;
use bb_base::{Failed, NoMemory};
use bb_bucket::{Bucket, Found};
use bb_circular::Circular;
use bb_flash::{MemBoard, Region};
use std::alloc::Global;
use std::process::Abort;

pub(super) fn log(alloc: Global) -> Result<Circular, NoMemory>
    ensures { IfOk result (λ log.
        log ≡ record { block = tried_block; most = 56; kept = None; sight = None }) }
{
    Circular::of(alloc, Region { at: 64, size: 64 }, 16, 56)
}

fn read(log: &mut Circular, board: &mut MemBoard, out: &mut [u8; 56]) -> Result<Found, Failed>
    requires here { (circular_holding log.old).kind ≡ circular_kind tried_block }
    requires held { board.old.geometry ≡ tried_device }
    requires agreed { Agrees (circular_holding log.old) (device_of board.old) }
    ensures here { (circular_holding log.new).kind ≡ circular_kind tried_block }
    ensures held { board.new.geometry ≡ tried_device }
    ensures agreed { Agrees (circular_holding log.new) (device_of board.new) }
{
    log.read(board, out)
}

// What it says of its block is all that the law on a log's wear asks of a write.
pub(super) fn write(log: &mut Circular, board: &mut MemBoard, rec: &[u8]) -> Result<(), Failed>
    requires here { (circular_holding log.old).kind ≡ circular_kind tried_block }
    requires room { length rec.now ≤ 56 }
    requires held { board.old.geometry ≡ tried_device }
    requires agreed { Agrees (circular_holding log.old) (device_of board.old) }
    ensures here { (circular_holding log.new).kind ≡ circular_kind tried_block }
    ensures held { board.new.geometry ≡ tried_device }
    ensures agreed { Agrees (circular_holding log.new) (device_of board.new) }
    ensures written { OnOk result (IsWritten tried_block (length rec.now) rec.now
        (device_of board.old) (device_of board.new)) }
{
    log.write(board, rec)
}

pub(super) fn void(log: &mut Circular, board: &mut MemBoard) -> Result<(), Failed>
    requires here { (circular_holding log.old).kind ≡ circular_kind tried_block }
    requires held { board.old.geometry ≡ tried_device }
    requires agreed { Agrees (circular_holding log.old) (device_of board.old) }
    ensures here { (circular_holding log.new).kind ≡ circular_kind tried_block }
    ensures held { board.new.geometry ≡ tried_device }
    ensures agreed { Agrees (circular_holding log.new) (device_of board.new) }
{
    log.void(board)
}

// A write of the record, which answers Ok.
pub(super) fn must_write(rt: &impl Abort, log: &mut Circular, board: &mut MemBoard, pages: Pages)
    requires here { (circular_holding log.old).kind ≡ circular_kind tried_block }
    requires held { board.old.geometry ≡ tried_device }
    requires agreed { Agrees (circular_holding log.old) (device_of board.old) }
    ensures here { (circular_holding log.new).kind ≡ circular_kind tried_block }
    ensures held { board.new.geometry ≡ tried_device }
    ensures agreed { Agrees (circular_holding log.new) (device_of board.new) }
{
    let written = write(log, board, &RECORD).is_ok();
    check(rt, written, pages);
}

// The bucket finds what stands in these pages.
pub(super) fn finds(rt: &impl Abort, log: &mut Circular, board: &mut MemBoard, pages: Pages)
    requires here { (circular_holding log.old).kind ≡ circular_kind tried_block }
    requires held { board.old.geometry ≡ tried_device }
    requires agreed { Agrees (circular_holding log.old) (device_of board.old) }
    ensures here { (circular_holding log.new).kind ≡ circular_kind tried_block }
    ensures held { board.new.geometry ≡ tried_device }
    ensures agreed { Agrees (circular_holding log.new) (device_of board.new) }
{
    let mut out = [0; 56];
    let answer = read(log, board, &mut out);
    check(rt, is_answer(answer, pages), pages);
    check(rt, is_record(&out, pages), pages);
}

fn is_answer(answer: Result<Found, Failed>, pages: Pages) -> bool {
    answer == Ok(found_in(pages))
}
