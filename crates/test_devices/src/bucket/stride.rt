ghost use Rattle.std.specs.Prelude.{◌≡◌, ◌<◌, None, IfOk, IsTrue};
ghost use Rattle.bb_bucket.specs.Calls.{Agrees};
ghost use Rattle.bb_bucket.specs.Stride.{lies_on, stride_holding, stride_kind};
ghost use Rattle.bb_flash.specs.Memory.{device_of};
ghost use Rattle.test_devices.specs.Trials.{tried_stride};

use bb_base::{Failed, NoMemory};
use bb_bucket::{Bucket, Found, Stride};
use bb_flash::{Fault, Fill, Geometry, Health, MemBoard, Region};
use std::alloc::Global;
use std::process::Abort;
use std::test::Fail;

// What stands in front of 25 bytes.
const FRONT: [u8; 8] = *b"\xf3\xfd\x54\x23\x19\x00\x00\x00";

// The raw record of `123456789` under the magic 0x12345678.
fn worked() -> [u8; 25] {
    *b"\x78\x56\x34\x12\x00\x00\x09\x00\x26\x39\xf4\xcb\x03\x2e\x3c\xdf123456789"
}

// The second of three strides of 64 bytes.
fn stride(alloc: Global) -> Result<Stride, NoMemory>
    ensures { IfOk result (λ stride.
        stride ≡ record { region = tried_stride; most = 56; sight = None }) }
{
    Stride::of(alloc, Region { at: 64, size: 64 }, 56)
}

fn board(alloc: Global) -> Result<MemBoard, NoMemory>
    ensures { IfOk result (λ board. IsTrue (lies_on tried_stride board.geometry)) }
{
    let geometry = Geometry {
        page: 1,
        block: 0,
        size: 192,
    };
    MemBoard::of(alloc, geometry, &[0xFF; 192], 9, 99)
}

// Writes the record.
fn write(stride: &mut Stride, board: &mut MemBoard) -> Result<(), Failed>
    requires here { (stride_holding stride.old).kind ≡ stride_kind tried_stride }
    requires held { IsTrue (lies_on tried_stride board.old.geometry) }
    requires agreed { Agrees (stride_holding stride.old) (device_of board.old) }
    ensures here { (stride_holding stride.new).kind ≡ stride_kind tried_stride }
    ensures held { IsTrue (lies_on tried_stride board.new.geometry) }
    ensures agreed { Agrees (stride_holding stride.new) (device_of board.new) }
{
    stride.write(board, &worked())
}

fn void(stride: &mut Stride, board: &mut MemBoard) -> Result<(), Failed>
    requires here { (stride_holding stride.old).kind ≡ stride_kind tried_stride }
    requires held { IsTrue (lies_on tried_stride board.old.geometry) }
    requires agreed { Agrees (stride_holding stride.old) (device_of board.old) }
    ensures here { (stride_holding stride.new).kind ≡ stride_kind tried_stride }
    ensures held { IsTrue (lies_on tried_stride board.new.geometry) }
    ensures agreed { Agrees (stride_holding stride.new) (device_of board.new) }
{
    stride.void(board)
}

fn read(stride: &mut Stride, board: &mut MemBoard, out: &mut [u8; 56]) -> Result<Found, Failed>
    requires here { (stride_holding stride.old).kind ≡ stride_kind tried_stride }
    requires held { IsTrue (lies_on tried_stride board.old.geometry) }
    requires agreed { Agrees (stride_holding stride.old) (device_of board.old) }
    ensures here { (stride_holding stride.new).kind ≡ stride_kind tried_stride }
    ensures held { IsTrue (lies_on tried_stride board.new.geometry) }
    ensures agreed { Agrees (stride_holding stride.new) (device_of board.new) }
{
    stride.read(board, out)
}

fn set_health(board: &mut MemBoard, page: u32, health: Health)
    requires held { IsTrue (lies_on tried_stride board.old.geometry) }
    requires inside { page < 128 }
    ensures { IsTrue (lies_on tried_stride board.new.geometry) }
{
    board.set_health(page, health);
}

// Whether a read finds a record of so many bytes, and it worn.
fn finds(
    stride: &mut Stride,
    board: &mut MemBoard,
    out: &mut [u8; 56],
    len: Option<u32>,
    worn: bool,
) -> bool
    requires here { (stride_holding stride.old).kind ≡ stride_kind tried_stride }
    requires held { IsTrue (lies_on tried_stride board.old.geometry) }
    requires agreed { Agrees (stride_holding stride.old) (device_of board.old) }
    ensures here { (stride_holding stride.new).kind ≡ stride_kind tried_stride }
    ensures held { IsTrue (lies_on tried_stride board.new.geometry) }
    ensures agreed { Agrees (stride_holding stride.new) (device_of board.new) }
{
    read(stride, board, out) == Ok(Found { len, worn })
}

// Whether the board holds these bytes in front of the record, and nothing elsewhere.
fn holds(board: &MemBoard, front: &[u8; 8]) -> bool {
    let mut want = [0xFF; 192];
    want[64..72].copy_from_slice(front);
    want[72..97].copy_from_slice(&worked());
    board.bytes() == want.as_slice()
}

fn is_record(out: &[u8; 56]) -> bool {
    let mut want = [0; 56];
    want[..25].copy_from_slice(&worked());
    *out == want
}

#[test]
fn the_worked_record_is_written_and_read(rt: HostRuntime) -> Result<(), Fail> {
    let mut stride = stride(rt.alloc())?;
    let mut board = board(rt.alloc())?;
    let mut out = [0; 56];
    assert!(rt; finds(&mut stride, &mut board, &mut out, None, false));
    assert!(rt; write(&mut stride, &mut board).is_ok());
    assert!(rt; holds(&board, &FRONT));
    assert!(rt; finds(&mut stride, &mut board, &mut out, Some(25), false));
    assert!(rt; is_record(&out));
    Ok(())
}

#[test]
fn a_voided_stride_holds_no_record(rt: HostRuntime) -> Result<(), Fail> {
    let mut stride = stride(rt.alloc())?;
    let mut board = board(rt.alloc())?;
    assert!(rt; write(&mut stride, &mut board).is_ok());
    assert!(rt; void(&mut stride, &mut board).is_ok());
    assert!(rt; holds(&board, &[0; 8]));
    let mut out = [0; 56];
    assert!(rt; finds(&mut stride, &mut board, &mut out, None, false));
    Ok(())
}

// A record was written, and a page then gets another health, which a new bucket meets.
fn tells(
    rt: &impl Abort,
    alloc: Global,
    page: u32,
    health: Health,
    len: Option<u32>,
    worn: bool,
) -> Result<(), NoMemory>
    requires inside { page < 128 }
{
    let mut written = stride(alloc)?;
    let mut board = board(alloc)?;
    assert!(rt; write(&mut written, &mut board).is_ok(), "page {page}");
    set_health(&mut board, page, health);
    let mut fresh = stride(alloc)?;
    let mut out = [0; 56];
    assert!(rt;
        finds(&mut fresh, &mut board, &mut out, len, worn),
        "page {page}"
    );
    Ok(())
}

#[test]
fn worn_and_lost_pages_tell(rt: HostRuntime) -> Result<(), Fail> {
    tells(&rt, rt.alloc(), 96, Health::Worn, Some(25), true)?;
    tells(&rt, rt.alloc(), 97, Health::Worn, Some(25), false)?;
    tells(&rt, rt.alloc(), 96, Health::Lost, None, false)?;
    tells(&rt, rt.alloc(), 71, Health::Lost, None, false)?;
    tells(&rt, rt.alloc(), 97, Health::Lost, Some(25), false)?;
    Ok(())
}

#[test]
fn a_failed_program_fails_the_write(rt: HostRuntime) -> Result<(), Fail> {
    let mut stride = stride(rt.alloc())?;
    let mut board = board(rt.alloc())?;
    board.plan_fault(0, Fault::Fail(Fill::Junk))?;
    assert!(rt; write(&mut stride, &mut board).is_err());
    assert!(rt; void(&mut stride, &mut board).is_ok());
    Ok(())
}
