ghost use Rattle.std.specs.Prelude.{◌≡◌, ◌<◌, IfOk};

use bb_base::{Failed, NoMemory, Text, TextList};
use bb_flash::{Board, Fault, Fill, Flash, Geometry, Health, MemBoard, Plan, geometry_of};
use std::alloc::Global;
use std::process::Abort;
use std::test::Fail;

fn spells(rt: &impl Abort, word: &str, geometry: Geometry) {
    assert_eq!(rt; geometry_of(word), Some(geometry));
}

fn spells_none(rt: &impl Abort, word: &str) {
    assert!(rt; geometry_of(word).is_none());
}

#[test]
fn words_spell_geometries(rt: HostRuntime) {
    let in_place = Geometry {
        page: 1,
        block: 0,
        size: 192,
    };
    spells(&rt, "ov:192", in_place);
    let blocks = Geometry {
        page: 256,
        block: 65536,
        size: 1048576,
    };
    spells(&rt, "er:256:65536:1048576", blocks);
    spells(&rt, "er:0x100:0x10000:0X100000", blocks);
}

#[test]
fn other_words_spell_none(rt: HostRuntime) {
    spells_none(&rt, "ov:0");
    spells_none(&rt, "ov:268435457");
    spells_none(&rt, "ov:192:1");
    spells_none(&rt, "er:15:30:60");
    spells_none(&rt, "er:16:40:80");
    spells_none(&rt, "er:16:32");
    spells_none(&rt, "nand:192");
}

// A board of four bytes that is overwritten in place.
fn small(alloc: Global) -> Result<MemBoard, NoMemory>
    ensures { IfOk result (λ board. board.geometry ≡ record { page = 1; block = 0; size = 4 }) }
{
    let geometry = Geometry {
        page: 1,
        block: 0,
        size: 4,
    };
    MemBoard::of(alloc, geometry, &[1, 2, 3, 4], 9, 9)
}

// A read of one byte answers this.
fn reads(rt: &impl Abort, board: &mut MemBoard, at: u32, answer: Result<Health, Failed>)
    requires small { board.old.geometry ≡ record { page = 1; block = 0; size = 4 } }
    requires inside { at < 4 }
    ensures { board.new.geometry ≡ board.old.geometry }
{
    let mut out = [0; 1];
    assert_eq!(rt; board.read(at, &mut out), answer);
}

// It gives this byte and health.
fn gives(rt: &impl Abort, board: &mut MemBoard, at: u32, health: Health, byte: u8)
    requires small { board.old.geometry ≡ record { page = 1; block = 0; size = 4 } }
    requires inside { at < 4 }
    ensures { board.new.geometry ≡ board.old.geometry }
{
    let mut out = [0; 1];
    assert_eq!(rt; board.read(at, &mut out), Ok(health));
    assert_eq!(rt; out[0], byte);
}

// A program of this byte answers this.
fn puts(rt: &impl Abort, board: &mut MemBoard, at: u32, byte: u8, answer: Result<(), Failed>)
    requires small { board.old.geometry ≡ record { page = 1; block = 0; size = 4 } }
    requires inside { at < 4 }
    ensures { board.new.geometry ≡ board.old.geometry }
{
    assert_eq!(rt; put(board, at, byte), answer);
}

fn put(board: &mut MemBoard, at: u32, byte: u8) -> Result<(), Failed>
    requires small { board.old.geometry ≡ record { page = 1; block = 0; size = 4 } }
    requires inside { at < 4 }
    ensures { board.new.geometry ≡ board.old.geometry }
{
    board.program(at, &[byte])
}

fn starts(rt: &impl Abort, board: &mut MemBoard, plan: &Plan, answer: Result<(), Failed>) {
    assert_eq!(rt; board.start(plan), answer);
}

fn holds(rt: &impl Abort, board: &MemBoard, bytes: &[u8]) {
    assert_eq!(rt; board.bytes(), bytes);
}

fn counts(rt: &impl Abort, count: u64, wanted: u64) {
    assert_eq!(rt; count, wanted);
}

#[test]
fn a_read_gives_the_byte_and_the_health_of_its_page(rt: HostRuntime) -> Result<(), Fail> {
    let mut board = small(rt.alloc())?;
    board.set_health(3, Health::Worn);
    gives(&rt, &mut board, 1, Health::Fine, 2);
    gives(&rt, &mut board, 3, Health::Worn, 4);
    Ok(())
}

#[test]
fn a_planned_read_fails(rt: HostRuntime) -> Result<(), Fail> {
    let mut board = small(rt.alloc())?;
    board.plan_fault(1, Fault::Fail(Fill::Junk))?;
    reads(&rt, &mut board, 0, Ok(Health::Fine));
    reads(&rt, &mut board, 0, Err(Failed));
    reads(&rt, &mut board, 0, Ok(Health::Fine));
    counts(&rt, board.reads(), 2);
    Ok(())
}

#[test]
fn a_program_writes_its_bytes_alone(rt: HostRuntime) -> Result<(), Fail> {
    let mut board = small(rt.alloc())?;
    puts(&rt, &mut board, 1, 9, Ok(()));
    holds(&rt, &board, &[1, 9, 3, 4]);
    counts(&rt, board.programs(), 1);
    counts(&rt, board.erase_count(), 0);
    Ok(())
}

fn plan_three(board: &mut MemBoard) -> Result<(), Fail>
    ensures { board.new.geometry ≡ board.old.geometry }
{
    board.plan_fault(0, Fault::Fail(Fill::Half))?;
    board.plan_fault(1, Fault::Fail(Fill::Junk))?;
    board.plan_fault(2, Fault::Fail(Fill::Lost))?;
    Ok(())
}

#[test]
fn a_failed_program_leaves_its_filling(rt: HostRuntime) -> Result<(), Fail> {
    let mut board = small(rt.alloc())?;
    plan_three(&mut board)?;
    puts(&rt, &mut board, 0, 9, Err(Failed));
    puts(&rt, &mut board, 1, 9, Err(Failed));
    puts(&rt, &mut board, 2, 9, Err(Failed));
    holds(&rt, &board, &[1, 0xA5, 3, 4]);
    reads(&rt, &mut board, 2, Ok(Health::Lost));
    Ok(())
}

#[test]
fn a_cut_lasts_until_a_restart(rt: HostRuntime) -> Result<(), Fail> {
    let mut board = small(rt.alloc())?;
    board.plan_fault(0, Fault::Cut(Fill::Old))?;
    puts(&rt, &mut board, 0, 9, Err(Failed));
    puts(&rt, &mut board, 1, 9, Err(Failed));
    assert!(rt; board.was_cut());
    board.restart();
    puts(&rt, &mut board, 1, 9, Ok(()));
    holds(&rt, &board, &[1, 9, 3, 4]);
    Ok(())
}

#[test]
fn an_erase_blanks_its_block(rt: HostRuntime) -> Result<(), Fail> {
    let geometry = Geometry {
        page: 16,
        block: 32,
        size: 64,
    };
    let mut board = MemBoard::of(rt.alloc(), geometry, &[0; 64], 9, 99)?;
    let mut expected = [0; 64];
    expected[32..].fill(255);
    assert_eq!(rt; board.erase(1), Ok(()));
    holds(&rt, &board, &expected);
    Ok(())
}

fn plan(alloc: Global) -> Result<Plan, NoMemory> {
    let mut initrds = TextList::none(alloc);
    initrds.push(Text::of(alloc, "/initrd")?)?;
    Ok(Plan {
        place: 2,
        linux: Text::of(alloc, "/zImage")?,
        initrds,
        options: Text::of(alloc, "rw")?,
        devicetree: Text::of(alloc, "")?,
    })
}

fn start_one(rt: &impl Abort, alloc: Global, board: &mut MemBoard) -> Result<(), Fail> {
    let plan = plan(alloc)?;
    starts(rt, board, &plan, Ok(()));
    Ok(())
}

fn places_one(rt: &impl Abort, board: &MemBoard) {
    assert_eq!(rt; board.plan_at(0).map(|plan| plan.place), Some(2));
    assert!(rt; board.plan_at(1).is_none());
}

#[test]
fn a_start_outlives_a_restart(rt: HostRuntime) -> Result<(), Fail> {
    let mut board = small(rt.alloc())?;
    start_one(&rt, rt.alloc(), &mut board)?;
    board.restart();
    counts(&rt, u64::from(board.start_count()), 1);
    places_one(&rt, &board);
    Ok(())
}

// The second start fails.
fn start_twice(rt: &impl Abort, alloc: Global, board: &mut MemBoard) -> Result<(), Fail> {
    let plan = plan(alloc)?;
    starts(rt, board, &plan, Ok(()));
    starts(rt, board, &plan, Err(Failed));
    Ok(())
}

#[test]
fn a_planned_start_fails(rt: HostRuntime) -> Result<(), Fail> {
    let mut board = small(rt.alloc())?;
    board.fail_start(1)?;
    start_twice(&rt, rt.alloc(), &mut board)?;
    counts(&rt, u64::from(board.start_count()), 1);
    assert!(rt; board.faulted());
    board.restart();
    assert!(rt; !board.faulted());
    Ok(())
}

// The third start fails, after a restart too.
fn start_three(rt: &impl Abort, alloc: Global, board: &mut MemBoard) -> Result<(), Fail> {
    let plan = plan(alloc)?;
    starts(rt, board, &plan, Ok(()));
    starts(rt, board, &plan, Ok(()));
    board.restart();
    starts(rt, board, &plan, Err(Failed));
    Ok(())
}

// Nine bytes have room for what a board of four bytes holds twice.
#[test]
fn a_start_takes_room_for_what_the_board_holds(rt: HostRuntime) -> Result<(), Fail> {
    let mut board = small(rt.alloc())?;
    start_three(&rt, rt.alloc(), &mut board)
}
