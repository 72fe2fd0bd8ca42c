ghost use Rattle.std.specs.Prelude.{◌≤◌};

use bb_base::{MemFiles, MemSink, Text, TextList};
use bb_flash::{Flash, Health, MemBoard, geometry_of};
use bb_tool::{Status, run};
use std::alloc::Global;
use std::process::Abort;
use std::test::Fail;

mod bad_words;
mod ends;
mod faults;
mod menus;
mod pieces;
mod raw;
mod states;

// Words that print an area of 9 bytes.
fn look() -> [&'static str; 4] {
    ["raw", "0x12345678", "9", "-g"]
}

// Words that save `123456789`.
fn save() -> [&'static str; 5] {
    ["raw", "0x12345678", "9", "-s", "313233343536373839"]
}

const FOUND: &str = "313233343536373839\n";

const NONE: &str = "none\n";

const ENTRY_LEN: usize = 33;

// The front of a stride, and the record of `123456789` under the magic 0x12345678.
fn entry() -> [u8; ENTRY_LEN] {
    *b"\xf3\xfd\x54\x23\x19\x00\x00\x00\x78\x56\x34\x12\x00\x00\x09\x00\x26\x39\xf4\xcb\x03\x2e\x3c\xdf123456789"
}

// Bytes over which nothing was written.
fn blank() -> [u8; ENTRY_LEN] {
    [0xff; ENTRY_LEN]
}

// A device of three strides that begin with these bytes.
fn strides(copies: [[u8; ENTRY_LEN]; 3]) -> [u8; 192] {
    let [first, second, third] = copies;
    with(with(with(fresh(), 0, first), 64, second), 128, third)
}

// The device with these bytes from there on.
fn with(mut device: [u8; 192], at: usize, begins: [u8; ENTRY_LEN]) -> [u8; 192]
    requires { at ≤ 159 }
{
    device[at..at + ENTRY_LEN].copy_from_slice(&begins);
    device
}

fn fresh() -> [u8; 192] {
    [0xff; 192]
}

fn written() -> [u8; 192] {
    strides([entry(); 3])
}

// A board of three strides.
fn board(alloc: Global, bytes: &[u8]) -> Result<MemBoard, Fail> {
    board_of(alloc, "ov:192", bytes)
}

fn board_of(alloc: Global, word: &str, bytes: &[u8]) -> Result<MemBoard, Fail> {
    let Some(geometry) = geometry_of(word) else {
        return Err(Fail::from("no geometry"));
    };
    if bytes.len() != geometry.size as usize {
        return Err(Fail::from("other bytes than the device has"));
    }
    Ok(MemBoard::of(alloc, geometry, bytes, 200, 4000)?)
}

fn words(alloc: Global, all: &[&str]) -> Result<TextList, Fail> {
    let mut list = TextList::none(alloc);
    add_words(alloc, &mut list, all)?;
    Ok(list)
}

fn add_words(alloc: Global, list: &mut TextList, all: &[&str]) -> Result<(), Fail> {
    for word in all {
        list.push(Text::of(alloc, word)?)?;
    }
    Ok(())
}

// A page of a device whose pages are bytes is lost.
fn lose(rt: &impl Abort, device: &mut MemBoard, page: u32) {
    let geometry = device.geometry();
    assert_eq!(rt; geometry.page, 1);
    assert!(rt; page < geometry.size);
    device.set_health(page, Health::Lost);
}

// What a session of these words answers. It sends to `out`.
fn session(
    alloc: Global,
    all: &[&str],
    device: &mut MemBoard,
    out: &mut MemSink,
) -> Result<Status, Fail> {
    let list = words(alloc, all)?;
    Ok(run(alloc, &list, &mut MemFiles::none(alloc), device, out))
}

// A session of these words answers and sends this.
fn says(
    rt: &impl Abort,
    alloc: Global,
    all: &[&str],
    device: &mut MemBoard,
    status: Status,
    sends: &str,
) -> Result<(), Fail> {
    let mut out = MemSink::with_room(alloc, 100)?;
    let answer = session(alloc, all, device, &mut out)?;
    answers(rt, answer, status, sends);
    sent(rt, &out, sends);
    Ok(())
}

fn answers(rt: &impl Abort, answer: Status, status: Status, sends: &str) {
    assert_eq!(rt; answer, status, "{sends}");
}

fn sent(rt: &impl Abort, out: &MemSink, sends: &str) {
    assert_eq!(rt; out.sent_bytes(), sends.as_bytes());
}

fn holds(rt: &impl Abort, device: &MemBoard, bytes: &[u8]) {
    assert_eq!(rt; device.bytes(), bytes);
}

// A look is done and sends this.
fn shows(rt: &impl Abort, alloc: Global, device: &mut MemBoard, sends: &str) -> Result<(), Fail> {
    says(rt, alloc, &look(), device, Status::Done, sends)
}
