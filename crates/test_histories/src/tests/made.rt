// Logs that are drawn from a number: what is shown of them follows from the list of what was
// written.
use super::items::Item::{
    self, Failing, Far, Four, Half, Junk, Long, Odd, One, Short, Two, Wide, Zero,
};
use super::{LOG_LEN, add_items, board_of, fill_to, says};
use bb_base::{Bytes, NoMemory};
use bb_tool::Status;
use std::alloc::Global;
use std::process::Abort;
use std::test::Fail;

// Numbers that follow from the one before, as of a linear congruential generator.
#[derive(Clone, Copy)]
struct Draws {
    state: u32,
}

impl Draws {
    fn next(&mut self) -> u32 {
        self.state = self
            .state
            .wrapping_mul(1_664_525)
            .wrapping_add(1_013_904_223);
        self.state >> 16
    }

    fn item(&mut self) -> Item {
        match self.next() % 14 {
            0 | 1 => One,
            2 | 3 => Two,
            4 => Four,
            5 => Long,
            6 | 7 => Half,
            8 => Failing,
            9 => Zero,
            10 => self.odd(),
            11 => Short,
            12 => Wide,
            _ => Junk,
        }
    }

    fn odd(&mut self) -> Item {
        if self.next() % 2 == 0 { Odd } else { Far }
    }
}

// What was written to one copy: its bytes, and the lines of what is to be shown.
#[derive(Drop)]
struct Made {
    bytes: Bytes,
    lines: Bytes,
    count: u32,
}

impl Made {
    fn none(alloc: Global) -> Made {
        Made {
            bytes: Bytes::none(alloc),
            lines: Bytes::none(alloc),
            count: 0,
        }
    }

    // Writes an item, where it fits after the others.
    fn write(&mut self, alloc: Global, item: Item) -> Result<(), NoMemory> {
        let len = self.bytes.as_slice().len();
        if LOG_LEN.saturating_sub(len) < item.bytes().len() {
            return Ok(());
        }
        add_items(&mut self.bytes, &[item])?;
        self.show(alloc, item)
    }

    fn show(&mut self, alloc: Global, item: Item) -> Result<(), NoMemory> {
        let Some(number) = item.number() else {
            return Ok(());
        };
        self.count = self.count.saturating_add(1);
        let count = self.count;
        let lines = format!(in alloc; "entry {count}\nn={number}\ntext=\n")?;
        self.lines.add(lines.as_bytes())
    }
}

fn drawn_log(alloc: Global, draws: &mut Draws) -> Result<Made, NoMemory> {
    let mut made = Made::none(alloc);
    let items = draws.next() % 20;
    for _ in 0..items {
        let item = draws.item();
        made.write(alloc, item)?;
    }
    Ok(made)
}

// Adds a copy that is drawn to the device's bytes, and what is shown of it.
fn add_copy(
    alloc: Global,
    copy: u32,
    draws: &mut Draws,
    bytes: &mut Bytes,
    sends: &mut Bytes,
) -> Result<(), NoMemory> {
    let mut made = drawn_log(alloc, draws)?;
    fill_to(alloc, &mut made.bytes, LOG_LEN)?;
    bytes.add(made.bytes.as_slice())?;
    let count = made.count;
    let line = format!(in alloc; "copy {copy} entries {count}\n")?;
    sends.add(line.as_bytes())?;
    sends.add(made.lines.as_slice())
}

fn shows_what_was_written(rt: &impl Abort, alloc: Global, number: u32) -> Result<(), Fail> {
    let mut draws = Draws { state: number };
    let mut bytes = Bytes::none(alloc);
    let mut sends = Bytes::none(alloc);
    for copy in 0..3 {
        add_copy(alloc, copy, &mut draws, &mut bytes, &mut sends)?;
    }
    let mut device = board_of(alloc, bytes.as_slice())?;
    says(rt, alloc, &mut device, Status::Done, sends.as_slice())
}

#[test]
fn two_hundred_made_logs(rt: HostRuntime) -> Result<(), Fail> {
    for number in 0..200 {
        shows_what_was_written(&rt, rt.alloc(), number)?;
    }
    Ok(())
}
