// A small board with three copies of the state of the example board, and a slot behind them that
// holds an old system; and sessions on it.
use bb_base::{Bytes, MemFiles, MemSink, NoMemory, Text, TextList};
use bb_flash::{Health, MemBoard, geometry_of};
use bb_tool::{Status, run};
use std::alloc::Global;
use std::process::Abort;
use std::test::Fail;

/// What the device is.
#[derive(Clone, Copy, Debug, PartialEq, Eq)]
pub enum Rig {
    /// Overwritten in place: copies in strides of 64 bytes, and a slot of 512 bytes.
    Strides,
    /// In blocks of 256 bytes and pages of 32: copies that are logs, and a slot of two blocks.
    Blocks,
}

// Where the slot begins, and how long it is and the device.
const SLOT_AT: usize = 1024;

const SLOT_LEN: usize = 512;

const DEVICE_LEN: usize = 2048;

/// How many bytes the image has.
pub const IMAGE_LEN: usize = 300;

/// What stood in the slot before.
pub const OLD_BYTE: u8 = 0x5a;

/// The words of an install. The digest is what sha256sum prints of the image.
pub fn install() -> &'static str {
    "install -i board.dts -c set.txt -t system0 -p root0 -f image --sha256 \
     3f9a65256ad755f1ddbce26ec22b74ebe2f775fad9477537ac0249439cf744f3"
}

/// The words of a boot.
pub fn boot() -> &'static str {
    "boot -i board.dts -c set.txt"
}

/// The words of a comparison.
pub fn verify() -> &'static str {
    "verify -i board.dts -p root0 -f image"
}

impl Rig {
    fn geometry(self) -> &'static str {
        match self {
            Rig::Strides => "ov:2048",
            Rig::Blocks => "er:32:256:2048",
        }
    }

    // In bytes.
    fn page(self) -> usize {
        match self {
            Rig::Strides => 1,
            Rig::Blocks => 32,
        }
    }
}

/// The byte of the image at an offset.
pub fn image_byte(offset: usize) -> u8 {
    (offset % 250) as u8 + 1
}

fn image(alloc: Global) -> Result<Bytes, NoMemory> {
    let mut image = Bytes::none(alloc);
    for offset in 0..IMAGE_LEN {
        image.add(&[image_byte(offset)])?;
    }
    Ok(image)
}

/// A blank device but for the old system in its slot.
pub fn board(alloc: Global, rig: Rig) -> Result<MemBoard, Fail> {
    let mut bytes = Bytes::none(alloc);
    for place in 0..DEVICE_LEN {
        bytes.add(&[old_byte(place)])?;
    }
    let Some(geometry) = geometry_of(rig.geometry()) else {
        return Err(Fail::from("no geometry"));
    };
    if bytes.as_slice().len() != geometry.size as usize {
        return Err(Fail::from("another size"));
    }
    Ok(MemBoard::of(alloc, geometry, bytes.as_slice(), 400, 40_000)?)
}

fn old_byte(place: usize) -> u8 {
    if place < SLOT_AT {
        return 0xff;
    }
    if place - SLOT_AT < SLOT_LEN {
        OLD_BYTE
    } else {
        0xff
    }
}

fn source() -> &'static [u8] {
    b"/dts-v1/;
/ {
  p: partition@0 { reg = <0x0 0x300>; };
  partition@400 { label = \"root0\"; reg = <0x400 0x200>; };
  state@0 {
    compatible = \"barebox,state\";
    magic = <0x4d433230>;
    backend-type = \"raw\";
    backend = <&p>;
    backend-stridesize = <0x40>;
    bootstate {
      system0 {
        remaining_attempts@0 { reg = <0x0 0x4>; type = \"uint32\"; default = <3>; };
        priority@4 { reg = <0x4 0x4>; type = \"uint32\"; default = <20>; };
      };
      system1 {
        remaining_attempts@8 { reg = <0x8 0x4>; type = \"uint32\"; default = <3>; };
        priority@c { reg = <0xc 0x4>; type = \"uint32\"; default = <10>; };
      };
      last_chosen@10 { reg = <0x10 0x4>; type = \"uint32\"; };
    };
  };
};
"
}

fn settings() -> &'static [u8] {
    b"global.bootchooser.targets=\"system0 system1\"
global.bootchooser.system0.default_priority=40
"
}

fn files_of(alloc: Global) -> Result<MemFiles, Fail> {
    let image = image(alloc)?;
    let mut files = MemFiles::none(alloc);
    files.add("board.dts", source())?;
    files.add("set.txt", settings())?;
    files.add("image", image.as_slice())?;
    files.add("loader/entries/system0.conf", b"linux /zImage\n")?;
    files.add("loader/entries/system1.conf", b"linux /zImage\n")?;
    Ok(files)
}

fn words(alloc: Global, line: &str) -> Result<TextList, Fail> {
    let mut list = TextList::none(alloc);
    for word in line.split(' ') {
        if !word.is_empty() {
            list.push(Text::of(alloc, word)?)?;
        }
    }
    Ok(list)
}

/// What a session of these words answers. It sends to `out`.
pub fn session(
    alloc: Global,
    line: &str,
    device: &mut MemBoard,
    out: &mut MemSink,
) -> Result<Status, Fail> {
    let list = words(alloc, line)?;
    let mut files = files_of(alloc)?;
    Ok(run(alloc, &list, &mut files, device, out))
}

/// A session answers and sends this.
pub fn says(
    rt: &impl Abort,
    alloc: Global,
    line: &str,
    device: &mut MemBoard,
    status: Status,
    sends: &str,
) -> Result<(), Fail> {
    let mut out = MemSink::with_room(alloc, 300)?;
    let answer = session(alloc, line, device, &mut out)?;
    assert_eq!(rt; answer, status, "{sends}");
    assert_eq!(rt; out.sent_bytes(), sends.as_bytes());
    Ok(())
}

/// Whether the slot is as it was: the old system's bytes, and no page is Lost.
pub fn is_untouched(rig: Rig, device: &MemBoard) -> bool {
    for offset in 0..SLOT_LEN {
        if !stands(rig, device, offset, OLD_BYTE) {
            return false;
        }
    }
    true
}

/// Whether the slot holds the whole image, and none of its pages is Lost.
pub fn is_whole(rig: Rig, device: &MemBoard) -> bool {
    for offset in 0..IMAGE_LEN {
        if !stands(rig, device, offset, image_byte(offset)) {
            return false;
        }
    }
    true
}

/// Whether all of the slot behind the image's last page holds 0xFF.
pub fn is_blank_behind(device: &MemBoard) -> bool {
    for place in SLOT_AT + 320..SLOT_AT + SLOT_LEN {
        if device.bytes().get(place).copied() != Some(0xff) {
            return false;
        }
    }
    true
}

// Whether a byte stands at an offset of the slot, in a page that isn't Lost.
fn stands(rig: Rig, device: &MemBoard, offset: usize, byte: u8) -> bool {
    let place = SLOT_AT.saturating_add(offset);
    let Some(page) = page_of(rig, place) else {
        return false;
    };
    if device.health(page) == Some(Health::Lost) {
        return false;
    }
    device.bytes().get(place).copied() == Some(byte)
}

// The page of a place on the device.
fn page_of(rig: Rig, place: usize) -> Option<u32> {
    let page = place.checked_div(rig.page())?;
    u32::try_from(page).ok()
}
