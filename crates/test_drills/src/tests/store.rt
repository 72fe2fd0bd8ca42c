// A small store, whose sessions the drill tries. Its table is one number below 100, which a copy
// has in each byte of its block's first page. A boot takes one from it, and starts nothing at 0.
ghost use Rattle.std.specs.Prelude.{◌≡◌, ◌+◌, ◌<◌, ◌≤◌, ◌∷◌, [], IfOk, IsTrue, length};
ghost use Rattle.std.specs.Prelude.{◌==◌, if◌then◌else◌};
ghost use Rattle.std.specs.List.{list_all};
ghost use Rattle.bb_base.specs.Faults.{Rose};
ghost use Rattle.bb_flash.specs.Image.{IsBlank};
ghost use Rattle.bb_drill.specs.Board.{board_geometry};
ghost use Rattle.bb_drill.specs.Draws.{may_start};
ghost use Rattle.test_drills.specs.Store as store;
ghost use Rattle.test_drills.specs.Store.{EndsAsMade, StartsAtMost};

use super::boots::starts;
use bb_base::{Bytes, Failed, NoMemory};
use bb_drill::{DrillCommand, SessionEnd, Sessions};
use bb_flash::{Flash, Health, MemBoard};
use std::alloc::Global;

/// The store. One that is made wrong saves copy 0 alone.
#[derive(Clone, Copy)]
pub struct Store {
    pub wrong: bool,
}

const PAGE: usize = 64;

// The number where no copy passes.
const DEFAULT: u8 = 10;

impl Sessions for Store {
    ghost use Rattle.std.specs.Prelude.{⊤, refl};
    ghost use Rattle.test_drills.specs.Fresh.{fresh_finds_none};
    ghost use Rattle.test_drills.specs.Store.{store_rules};

    ghost rules = { store_rules };

    ghost runs = { λ command before after. ⊤ };

    fn defaults(&self, alloc: Global) -> Result<Bytes, NoMemory> {
        bytes_of(alloc, DEFAULT)
    }

    fn look(&mut self, alloc: Global, board: &mut MemBoard) -> Result<Option<Bytes>, NoMemory> {
        match number_stored(board) {
            Some(number) => Ok(Some(bytes_of(alloc, number)?)),
            None => Ok(None),
        }
    }

    fn made(&self, alloc: Global, command: DrillCommand, table: &[u8]) -> Result<Bytes, NoMemory> {
        bytes_of(alloc, number_made(command, number_of_table(table)))
    }

    fn session(
        &mut self,
        alloc: Global,
        board: &mut MemBoard,
        command: DrillCommand,
    ) -> SessionEnd {
        let faults = board.faults();
        let start_faults = board.start_faults();
        let loaded = number_on(board);
        let made = number_made(command, loaded);
        let end = works(alloc, board, *self, command, loaded, made);
        end_of(board, faults, start_faults, end, made)
    }

    ghost fresh = { fresh_finds_none };
}

fn bytes_of(alloc: Global, number: u8) -> Result<Bytes, NoMemory>
    ensures { IfOk result (λ bytes. bytes ≡ number ∷ []) }
{
    let mut bytes = Bytes::none(alloc);
    bytes.add(&[number])?;
    Ok(bytes)
}

fn number_of_table(table: &[u8]) -> u8
    ensures { result ≡ store.number_of_table table.now }
{
    match table {
        [number, ..] => *number,
        [] => DEFAULT,
    }
}

fn number_made(command: DrillCommand, number: u8) -> u8
    ensures { result ≡ store.number_made command number }
{
    match command {
        DrillCommand::Priority(value) => (value % 100) as u8,
        DrillCommand::Boot => number.saturating_sub(1),
        DrillCommand::MarkGood => 50,
        DrillCommand::Show => number,
    }
}

// The number of the first copy that passes.
fn number_stored(board: &MemBoard) -> Option<u8>
    requires { board.now.geometry ≡ board_geometry }
    ensures { result ≡ store.number_stored board.now.told.image }
{
    if let Some(number) = passed_by(board, 0) {
        return Some(number);
    }
    if let Some(number) = passed_by(board, 1) {
        return Some(number);
    }
    passed_by(board, 2)
}

fn number_on(board: &MemBoard) -> u8
    requires { board.now.geometry ≡ board_geometry }
    ensures { result ≡ store.number_on board.now.told.image }
{
    match number_stored(board) {
        Some(number) => number,
        None => DEFAULT,
    }
}

#[tactic(auto, unfolding(crate::specs::Store::passed_by))]
fn passed_by(board: &MemBoard, copy: u32) -> Option<u8>
    requires geometry { board.now.geometry ≡ board_geometry }
    requires copy { copy < 3 }
    ensures { result ≡ store.passed_by copy board.now.told.image }
{
    let _whole = board.geometry();
    if is_page_lost(board.health(copy * 4)) {
        return None;
    }
    let first = (copy * 256) as usize;
    number_of_page(&board.bytes()[first..first + PAGE])
}

fn is_page_lost(health: Option<Health>) -> bool
    ensures { result ≡ store.is_page_lost health }
{
    matches!(health, Some(Health::Lost))
}

fn number_of_page(page: &[u8]) -> Option<u8>
    ensures { result ≡ store.number_of_page page.now }
{
    let [number, more @ ..] = page else {
        return None;
    };
    if *number < 100 && are_all(more, *number) {
        return Some(*number);
    }
    None
}

fn are_all(bytes: &[u8], number: u8) -> bool
    ensures { result ≡ list_all (λ byte. byte == number) bytes.now }
{
    bytes.iter().all(|byte| *byte == number)
}

// How a session ends: not whole where a count rose, or where the number isn't what it was to be.
fn end_of(board: &MemBoard, faults: u64, start_faults: u64, end: SessionEnd, made: u8) -> SessionEnd
    requires { board.now.geometry ≡ board_geometry }
    ensures { (Rose faults board.now.faults → ⊥) → (Rose start_faults board.now.start_faults → ⊥)
        → EndsAsMade made board.now.told.image result }
{
    if faults < board.faults() {
        return end;
    }
    if start_faults < board.start_faults() {
        return end;
    }
    if number_on(board) == made {
        return SessionEnd::Whole;
    }
    SessionEnd::NoMemory
}

// The load, the save, and the start.
fn works(
    alloc: Global,
    board: &mut MemBoard,
    store: Store,
    command: DrillCommand,
    loaded: u8,
    made: u8,
) -> SessionEnd
    requires { board.old.geometry ≡ board_geometry }
    ensures { StartsAtMost (if may_start command then 1 else 0) board.old board.new }
{
    let Ok(mut page) = page_of(alloc) else {
        return SessionEnd::NoMemory;
    };
    let page = page.as_mut_slice();
    if reads(board, page).is_err() {
        return SessionEnd::Unread;
    }
    if refreshes(board, loaded, page).is_err() {
        return SessionEnd::Unwritten;
    }
    if made != loaded && saves(board, store, made, page).is_err() {
        return SessionEnd::Unwritten;
    }
    starts(alloc, board, command, loaded)
}

fn page_of(alloc: Global) -> Result<Vec<u8>, NoMemory>
    ensures { IfOk result (λ page. length page.items ≡ 64) }
{
    Ok(vec![in alloc; 0; PAGE]?)
}

fn reads(board: &mut MemBoard, page: &mut [u8]) -> Result<(), Failed>
    requires geometry { board.old.geometry ≡ board_geometry }
    requires page { length page.old ≡ 64 }
    ensures { StartsAtMost 0 board.old board.new }
{
    board.read(0, page)?;
    board.read(256, page)?;
    board.read(512, page)?;
    Ok(())
}

// Each copy has the number that was found, if one was.
fn refreshes(board: &mut MemBoard, number: u8, page: &mut [u8]) -> Result<(), Failed>
    requires geometry { board.old.geometry ≡ board_geometry }
    requires page { length page.old ≡ 64 }
    ensures { StartsAtMost 0 board.old board.new }
{
    if number_stored(board).is_none() {
        return Ok(());
    }
    refresh(board, 0, number, page)?;
    refresh(board, 1, number, page)?;
    refresh(board, 2, number, page)
}

fn refresh(board: &mut MemBoard, copy: u32, number: u8, page: &mut [u8]) -> Result<(), Failed>
    requires geometry { board.old.geometry ≡ board_geometry }
    requires copy { copy < 3 }
    requires page { length page.old ≡ 64 }
    ensures { StartsAtMost 0 board.old board.new }
{
    if passed_by(board, copy) == Some(number) {
        return Ok(());
    }
    write(board, copy, number, page)
}

// Each copy is written, the first last.
fn saves(board: &mut MemBoard, store: Store, number: u8, page: &mut [u8]) -> Result<(), Failed>
    requires geometry { board.old.geometry ≡ board_geometry }
    requires page { length page.old ≡ 64 }
    ensures { StartsAtMost 0 board.old board.new }
{
    if store.wrong {
        return write(board, 0, number, page);
    }
    write(board, 1, number, page)?;
    write(board, 2, number, page)?;
    write(board, 0, number, page)
}

fn write(board: &mut MemBoard, copy: u32, number: u8, page: &mut [u8]) -> Result<(), Failed>
    requires geometry { board.old.geometry ≡ board_geometry }
    requires copy { copy < 3 }
    requires page { length page.old ≡ 64 }
    ensures { StartsAtMost 0 board.old board.new }
{
    let at = copy * 256;
    if !is_blank(board, at, page)? {
        board.erase(copy)?;
    }
    if !is_blank(board, at, page)? {
        return Err(Failed);
    }
    page.fill(number);
    board.program(at, page)
}

fn is_blank(board: &mut MemBoard, at: u32, page: &mut [u8]) -> Result<bool, Failed>
    requires geometry { board.old.geometry ≡ board_geometry }
    requires inside { at + 64 ≤ 768 }
    requires page { length page.old ≡ 64 }
    ensures keeps { StartsAtMost 0 board.old board.new }
    ensures blank { IfOk result (λ blank. IsTrue blank → IsBlank 64 board.new.told.image at 64) }
{
    let health = board.read(at, page)?;
    if health == Health::Lost {
        return Ok(false);
    }
    Ok(are_all(page, 0xFF))
}
