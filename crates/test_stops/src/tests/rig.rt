// The devices of these trials, each with three copies of the state of the example board: strides of
// 64 bytes, or erase blocks of 256 bytes in pages of 32, which hold one record each, or a log each.
// An entry of a log has two pages, and a block room for four.
use super::tables::Table;
use bb_base::{Bytes, NoMemory};
use bb_flash::{MemBoard, geometry_of};
use std::alloc::Global;
use std::process::Abort;
use std::test::Fail;

/// What the copies stand in.
#[derive(Clone, Copy, Debug, PartialEq, Eq)]
pub enum Rig {
    /// Strides, on a device that is overwritten in place.
    Strides,
    /// Blocks of one record.
    OneBlock,
    /// Blocks that are logs.
    Log,
}

impl Rig {
    fn geometry(self) -> &'static str {
        match self {
            Rig::Strides => "ov:192",
            Rig::OneBlock | Rig::Log => "er:32:256:768",
        }
    }

    /// The length of a copy's region.
    pub fn copy_len(self) -> usize {
        match self {
            Rig::Strides => 64,
            Rig::OneBlock | Rig::Log => 256,
        }
    }

    // Where the copies end.
    fn ends(self) -> [usize; 3] {
        match self {
            Rig::Strides => [64, 128, 192],
            Rig::OneBlock | Rig::Log => [256, 512, 768],
        }
    }
}

/// A device whose copies begin with the entries of these tables, one after the other. All else is
/// blank.
pub fn board(alloc: Global, rig: Rig, copies: [&[Table]; 3]) -> Result<MemBoard, Fail> {
    let bytes = image(alloc, rig, copies)?;
    board_of(alloc, rig.geometry(), bytes.as_slice())
}

fn board_of(alloc: Global, geometry: &str, bytes: &[u8]) -> Result<MemBoard, Fail> {
    let Some(geometry) = geometry_of(geometry) else {
        return Err(Fail::from("no geometry"));
    };
    if bytes.len() != geometry.size as usize {
        return Err(Fail::from("another size"));
    }
    Ok(MemBoard::of(alloc, geometry, bytes, 200, 9999)?)
}

/// The device holds the bytes of such a one.
pub fn holds(
    rt: &impl Abort,
    alloc: Global,
    rig: Rig,
    device: &MemBoard,
    copies: [&[Table]; 3],
) -> Result<(), Fail> {
    let wanted = image(alloc, rig, copies)?;
    is_image(rt, device, wanted.as_slice());
    Ok(())
}

fn is_image(rt: &impl Abort, device: &MemBoard, wanted: &[u8]) {
    assert!(rt; device.bytes() == wanted);
}

fn image(alloc: Global, rig: Rig, copies: [&[Table]; 3]) -> Result<Bytes, NoMemory> {
    let mut bytes = Bytes::none(alloc);
    add_copies(alloc, &mut bytes, rig, rig.ends(), copies)?;
    Ok(bytes)
}

fn add_copies(
    alloc: Global,
    bytes: &mut Bytes,
    rig: Rig,
    ends: [usize; 3],
    copies: [&[Table]; 3],
) -> Result<(), NoMemory> {
    for (end, copy) in ends.into_iter().zip(copies) {
        add_entries(bytes, rig, copy)?;
        fill_to(alloc, bytes, end)?;
    }
    Ok(())
}

fn add_entries(bytes: &mut Bytes, rig: Rig, tables: &[Table]) -> Result<(), NoMemory> {
    for table in tables {
        bytes.add(table.entry(rig))?;
    }
    Ok(())
}

// Adds blank bytes up to there.
fn fill_to(alloc: Global, bytes: &mut Bytes, len: usize) -> Result<(), NoMemory> {
    let missing = len.saturating_sub(bytes.as_slice().len());
    let blank = vec![in alloc; 0xffu8; missing]?;
    bytes.add(blank.as_slice())
}

/// The table that a copy passes, as its bytes stand: a stride or a block of one record begins with
/// its entry, and a log ends with it, up to what is blank.
pub fn passed(rig: Rig, device: &MemBoard, copy: usize) -> Option<Table> {
    let bytes = copy_of(rig, device.bytes(), copy);
    for table in [Table::Older, Table::Old, Table::New, Table::Spent] {
        if stands_in(rig, bytes, table) {
            return Some(table);
        }
    }
    None
}

fn stands_in(rig: Rig, copy: &[u8], table: Table) -> bool {
    match rig {
        Rig::Strides | Rig::OneBlock => copy.starts_with(table.entry(rig)),
        Rig::Log => written(copy).ends_with(table.entry(rig)),
    }
}

// The bytes of a copy.
fn copy_of(rig: Rig, bytes: &[u8], copy: usize) -> &[u8] {
    let at = rig.copy_len().saturating_mul(copy);
    let rest = bytes.get(at..).unwrap_or(&[]);
    rest.get(..rig.copy_len()).unwrap_or(&[])
}

// A block without the bytes 0xFF at its end.
fn written(block: &[u8]) -> &[u8] {
    match block.iter().rposition(|byte| *byte != 0xff) {
        Some(last) => &block[..=last],
        None => &[],
    }
}

/// The devicetree of such a board.
pub fn source(alloc: Global, rig: Rig) -> Result<Bytes, NoMemory> {
    let mut text = Bytes::none(alloc);
    text.add(head())?;
    text.add(partition(rig))?;
    text.add(storage(rig))?;
    text.add(variables())?;
    Ok(text)
}

fn head() -> &'static [u8] {
    b"/dts-v1/;
/memreserve/ 0x0000000010000000 0x0000000000004000;
/ {
    #address-cells = <0x01>;
    #size-cells = <0x01>;
    model = \"board\";
    aliases { state = \"/state\"; };
    flash@0 {
        reg = <0x00 0x100000>;
        partitions {
            compatible = \"fixed-partitions\";
            #address-cells = <0x01>;
            #size-cells = <0x01>;
"
}

fn partition(rig: Rig) -> &'static [u8] {
    match rig {
        Rig::Strides => {
            b"            partition@0 { label = \"state\"; reg = <0x0 0xc0>; phandle = <0x01>; };
"
        }
        Rig::OneBlock | Rig::Log => {
            b"            partition@0 { label = \"state\"; reg = <0x0 0x300>; phandle = <0x01>; };
"
        }
    }
}

fn storage(rig: Rig) -> &'static [u8] {
    match rig {
        Rig::Strides | Rig::Log => {
            b"        };
    };
    state {
"
        }
        Rig::OneBlock => {
            b"        };
    };
    state {
        backend-storage-type = \"noncircular\";
"
        }
    }
}

fn variables() -> &'static [u8] {
    b"        compatible = \"barebox,state\";
        magic = <0x4d433230>;
        backend-type = \"raw\";
        backend = <0x01>;
        backend-stridesize = <0x40>;
        bootstate {
            system0 {
                remaining_attempts@0 { reg = <0x00 0x04>; type = \"uint32\"; default = <0x03>; };
                priority@4 { reg = <0x04 0x04>; type = \"uint32\"; default = <0x14>; };
            };
            system1 {
                remaining_attempts@8 { reg = <0x08 0x04>; type = \"uint32\"; default = <0x03>; };
                priority@c { reg = <0x0c 0x04>; type = \"uint32\"; default = <0x0a>; };
            };
            last_chosen@10 { reg = <0x10 0x04>; type = \"uint32\"; };
        };
    };
};
"
}
