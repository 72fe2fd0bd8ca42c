// The example board, and the same with smaller flashes: of 192 bytes, with a stride of 64 for each
// copy; of 384 in pages of 64, with a block of 128 for each copy, which holds one record or a log
// of two entries; and of 12,288 in the same pages, with a log of 64 entries for each copy.
use bb_base::{Bytes, NoMemory};
use bb_flash::{MemBoard, geometry_of};
use std::alloc::Global;
use std::test::Fail;

// What a copy stands in.
#[derive(Clone, Copy, Debug, PartialEq, Eq)]
pub(super) enum Kind {
    // A stride of the example board.
    Example,
    Stride,
    OneBlock,
    Log,
    LongLog,
}

fn geometry_word(kind: Kind) -> &'static str {
    match kind {
        Kind::Example => "ov:1048576",
        Kind::Stride => "ov:192",
        Kind::OneBlock | Kind::Log => "er:64:128:384",
        Kind::LongLog => "er:64:4096:12288",
    }
}

// Room for the starts of all attempts, each of which keeps all bytes of the board.
fn room(kind: Kind) -> u32 {
    match kind {
        Kind::Example => 8000000,
        Kind::Stride | Kind::OneBlock | Kind::Log => 8000,
        Kind::LongLog => 40000,
    }
}

// So many calls a session may make of it.
fn most_calls(kind: Kind) -> u32 {
    match kind {
        Kind::Example | Kind::Stride | Kind::OneBlock | Kind::Log => 100,
        Kind::LongLog => 1000,
    }
}

// A board on which nothing was ever stored.
pub(super) fn fresh(alloc: Global, kind: Kind) -> Result<MemBoard, Fail> {
    let Some(geometry) = geometry_of(geometry_word(kind)) else {
        return Err(Fail::from("no geometry"));
    };
    let bytes = vec![in alloc; 0xffu8; geometry.size as usize]?;
    Ok(MemBoard::of(
        alloc,
        geometry,
        bytes.as_slice(),
        most_calls(kind),
        room(kind),
    )?)
}

// Its devicetree.
pub(super) fn source(alloc: Global, kind: Kind) -> Result<Bytes, NoMemory> {
    let mut text = Bytes::none(alloc);
    text.add(flash())?;
    text.add(partition(kind))?;
    text.add(storage(kind))?;
    text.add(variables())?;
    Ok(text)
}

fn flash() -> &'static [u8] {
    b"/dts-v1/;
/ {
    #address-cells = <0x01>;
    #size-cells = <0x01>;
    aliases { state = \"/state\"; };
    flash@0 {
        reg = <0x00 0x100000>;
        partitions {
            compatible = \"fixed-partitions\";
            #address-cells = <0x01>;
            #size-cells = <0x01>;
"
}

fn partition(kind: Kind) -> &'static [u8] {
    match kind {
        Kind::Example => {
            b"            partition@20000 { label = \"state\"; reg = <0x20000 0x30000>; phandle = <0x01>; };
"
        }
        Kind::Stride => {
            b"            partition@0 { label = \"state\"; reg = <0x0 0xc0>; phandle = <0x01>; };
"
        }
        Kind::OneBlock | Kind::Log => {
            b"            partition@0 { label = \"state\"; reg = <0x0 0x180>; phandle = <0x01>; };
"
        }
        Kind::LongLog => {
            b"            partition@0 { label = \"state\"; reg = <0x0 0x3000>; phandle = <0x01>; };
"
        }
    }
}

fn storage(kind: Kind) -> &'static [u8] {
    match kind {
        Kind::Example | Kind::Stride | Kind::Log | Kind::LongLog => {
            b"        };
    };
    state {
        backend-stridesize = <0x40>;
"
        }
        Kind::OneBlock => {
            b"        };
    };
    state {
        backend-stridesize = <0x40>;
        backend-storage-type = \"noncircular\";
"
        }
    }
}

fn variables() -> &'static [u8] {
    b"        compatible = \"barebox,state\";
        magic = <0x4d433230>;
        backend-type = \"raw\";
        backend = <0x01>;
        bootstate {
            system0 {
                remaining_attempts@0 { reg = <0x00 0x04>; type = \"uint32\"; default = <0x03>; };
                priority@4 { reg = <0x04 0x04>; type = \"uint32\"; default = <0x14>; };
            };
            system1 {
                remaining_attempts@8 { reg = <0x08 0x04>; type = \"uint32\"; default = <0x03>; };
                priority@c { reg = <0x0c 0x04>; type = \"uint32\"; default = <0x0a>; };
            };
            last_chosen@10 { reg = <0x10 0x04>; type = \"uint32\"; };
        };
    };
};
"
}
