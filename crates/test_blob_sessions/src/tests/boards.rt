// The example board's device, and the files beside it.
use bb_base::MemFiles;
use bb_flash::{MemBoard, geometry_of};
use std::alloc::Global;
use std::test::Fail;

// What the device is: one that is overwritten in place, or one with blocks.
#[derive(Clone, Copy, Debug, PartialEq, Eq)]
pub enum Kind {
    InPlace,
    Blocks,
}

fn geometry_word(kind: Kind) -> &'static str {
    match kind {
        Kind::InPlace => "ov:1048576",
        Kind::Blocks => "er:256:65536:1048576",
    }
}

// A device on which nothing was ever stored, with room for two starts, and in each session for
// reads of all pages of three blocks.
pub fn fresh(alloc: Global, kind: Kind) -> Result<MemBoard, Fail> {
    let Some(geometry) = geometry_of(geometry_word(kind)) else {
        return Err(Fail::from("no geometry"));
    };
    let bytes = vec![in alloc; 0xffu8; geometry.size as usize]?;
    Ok(MemBoard::of(alloc, geometry, bytes.as_slice(), 1000, 3000000)?)
}

fn settings() -> &'static [u8] {
    b"global.bootchooser.targets=\"system0 system1\"
global.bootchooser.state_prefix=state.bootstate
"
}

// The files of a session, where the board's devicetree is these bytes.
pub fn files(alloc: Global, tree: &[u8]) -> Result<MemFiles, Fail> {
    let mut files = MemFiles::none(alloc);
    files.add("board", tree)?;
    files.add("set.txt", settings())?;
    files.add("loader/entries/system0.conf", b"linux /zero\n")?;
    files.add("loader/entries/system1.conf", b"linux /one\n")?;
    Ok(files)
}

// The first bytes of a copy after all saves.
fn record(kind: Kind) -> &'static [u8] {
    match kind {
        Kind::InPlace => {
            b"\xf3\xfd\x54\x23\x24\0\0\0\x30\x32\x43\x4d\0\0\x14\0\xc3\x63\x13\x77\x54\x8b\x0a\x5c\
              \0\0\0\0\x1e\0\0\0\x03\0\0\0\x19\0\0\0\x02\0\0\0"
        }
        Kind::Blocks => {
            b"\x30\x32\x43\x4d\0\0\x14\0\xc3\x63\x13\x77\x54\x8b\x0a\x5c\
              \0\0\0\0\x1e\0\0\0\x03\0\0\0\x19\0\0\0\x02\0\0\0"
        }
    }
}

// Where the copies stand: in strides of 64 bytes, or as the fifth entry of a block, a page each.
fn places(kind: Kind) -> [usize; 3] {
    match kind {
        Kind::InPlace => [131072, 131136, 131200],
        Kind::Blocks => [132096, 197632, 263168],
    }
}

// Whether each copy of the device is as all saves leave it.
pub fn holds_records(device: &MemBoard, kind: Kind) -> bool {
    for place in places(kind) {
        let behind = device.bytes().get(place..).unwrap_or(&[]);
        if !behind.starts_with(record(kind)) {
            return false;
        }
    }
    true
}
