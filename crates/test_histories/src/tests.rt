use bb_base::{Bytes, MemFiles, MemSink, NoMemory, Text, TextList};
use bb_flash::{Flash, Health, MemBoard, geometry_of};
use bb_tool::{Status, run};
use std::alloc::Global;
use std::process::Abort;
use std::test::Fail;

mod damaged;
mod each_read;
mod items;
mod made;
mod whole;

use items::Item;

// Three logs of 32 pages of 32 bytes each.
const GEOMETRY: &str = "er:32:1024:3072";

const LOG_LEN: usize = 1024;

const SOURCE: &str = "/dts-v1/;
/ {
    part { phandle = <1>; reg = <0x0 0xc00>; };
    state {
        compatible = \"barebox,state\"; magic = <0x12345678>; backend-type = \"raw\"; backend = <1>;
        n@0 { reg = <0 4>; type = \"uint32\"; default = <3>; };
        text@4 { reg = <4 16>; type = \"string\"; };
    };
};";

// A device whose copies hold these items, one after the other. All else is blank.
fn board(alloc: Global, copies: [&[Item]; 3]) -> Result<MemBoard, Fail> {
    let mut bytes = Bytes::none(alloc);
    let mut end = LOG_LEN;
    for items in copies {
        add_items(&mut bytes, items)?;
        fill_to(alloc, &mut bytes, end)?;
        end = end.saturating_add(LOG_LEN);
    }
    board_of(alloc, bytes.as_slice())
}

fn add_items(bytes: &mut Bytes, items: &[Item]) -> Result<(), NoMemory> {
    for item in items {
        bytes.add(item.bytes())?;
    }
    Ok(())
}

// Adds blank bytes up to there.
fn fill_to(alloc: Global, bytes: &mut Bytes, len: usize) -> Result<(), NoMemory> {
    let missing = len.saturating_sub(bytes.as_slice().len());
    let blank = vec![in alloc; 0xffu8; missing]?;
    bytes.add(blank.as_slice())
}

fn board_of(alloc: Global, bytes: &[u8]) -> Result<MemBoard, Fail> {
    let Some(geometry) = geometry_of(GEOMETRY) else {
        return Err(Fail::from("no geometry"));
    };
    if bytes.len() != geometry.size as usize {
        return Err(Fail::from("another size"));
    }
    Ok(MemBoard::of(alloc, geometry, bytes, 200, 3000)?)
}

// Gives a page of a device another health.
fn set_health(device: &mut MemBoard, page: u32, health: Health) -> Result<(), Fail> {
    let geometry = device.geometry();
    if u64::from(page) * u64::from(geometry.page) >= u64::from(geometry.size) {
        return Err(Fail::from("no such page"));
    }
    device.set_health(page, health);
    Ok(())
}

fn words(alloc: Global) -> Result<TextList, Fail> {
    let mut list = TextList::none(alloc);
    for word in "history -i a.dts".split(' ') {
        list.push(Text::of(alloc, word)?)?;
    }
    Ok(list)
}

// A session that sends the history of a device.
fn session(alloc: Global, device: &mut MemBoard, out: &mut MemSink) -> Result<Status, Fail> {
    let mut files = MemFiles::none(alloc);
    files.add("a.dts", SOURCE.as_bytes())?;
    let list = words(alloc)?;
    Ok(run(alloc, &list, &mut files, device, out))
}

// What such a session answers and sends.
fn says(
    rt: &impl Abort,
    alloc: Global,
    device: &mut MemBoard,
    status: Status,
    sends: &[u8],
) -> Result<(), Fail> {
    let mut out = MemSink::with_room(alloc, 4000)?;
    let answer = session(alloc, device, &mut out)?;
    assert_eq!(rt; answer, status);
    assert_eq!(rt; out.sent_bytes(), sends);
    Ok(())
}

// The history of a device with these copies.
fn shows(rt: &impl Abort, alloc: Global, copies: [&[Item]; 3], sends: &str) -> Result<(), Fail> {
    let mut device = board(alloc, copies)?;
    says(rt, alloc, &mut device, Status::Done, sends.as_bytes())
}
