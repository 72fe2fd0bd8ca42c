// Devices with three copies: strides of 64 bytes, and erase blocks of 256 bytes in pages of 32,
// which hold one record each, or a log each. An entry of a log has two pages, and a block room for
// four.
use super::areas::{Content, front, record};
use bb_base::{Bytes, NoMemory};
use bb_flash::{MemBoard, geometry_of};
use std::alloc::Global;
use std::test::Fail;

/// What a copy stands in.
#[derive(Clone, Copy)]
pub enum Kind {
    Stride,
    OneBlock,
    Log,
}

fn geometry_word(kind: Kind) -> &'static str {
    match kind {
        Kind::Stride => "ov:192",
        Kind::OneBlock | Kind::Log => "er:32:256:768",
    }
}

fn copy_len(kind: Kind) -> usize {
    match kind {
        Kind::Stride => 64,
        Kind::OneBlock | Kind::Log => 256,
    }
}

/// A board whose copies hold these records, oldest first. After them all is blank.
pub fn board(alloc: Global, kind: Kind, copies: [&[Content]; 3]) -> Result<MemBoard, Fail> {
    let bytes = image(alloc, kind, copies)?;
    let Some(geometry) = geometry_of(geometry_word(kind)) else {
        return Err(Fail::from("no geometry"));
    };
    if bytes.as_slice().len() != geometry.size as usize {
        return Err(Fail::from("another size"));
    }
    Ok(MemBoard::of(alloc, geometry, bytes.as_slice(), 100, 9999)?)
}

/// All bytes of such a board.
pub fn image(alloc: Global, kind: Kind, copies: [&[Content]; 3]) -> Result<Bytes, NoMemory> {
    let mut bytes = Bytes::none(alloc);
    for records in copies {
        add_copy(alloc, &mut bytes, kind, records)?;
    }
    Ok(bytes)
}

fn add_copy(
    alloc: Global,
    bytes: &mut Bytes,
    kind: Kind,
    records: &[Content],
) -> Result<(), NoMemory> {
    let copy = copy_of(alloc, kind, records)?;
    bytes.add(copy.as_slice())
}

fn copy_of(alloc: Global, kind: Kind, records: &[Content]) -> Result<Bytes, NoMemory> {
    let mut copy = Bytes::none(alloc);
    add_records(&mut copy, kind, records)?;
    Ok(copy)
}

// Adds these records, and fills the copy up.
fn add_records(copy: &mut Bytes, kind: Kind, records: &[Content]) -> Result<(), NoMemory> {
    for which in records {
        add_record(copy, kind, record(*which))?;
    }
    for _ in copy.as_slice().len()..copy_len(kind) {
        copy.add(b"\xff")?;
    }
    Ok(())
}

// Adds a record after its front; in a log filled up to two pages, at whose end the closing words
// stand.
fn add_record(copy: &mut Bytes, kind: Kind, record: &[u8]) -> Result<(), NoMemory> {
    match kind {
        Kind::Log => {
            copy.add(record)?;
            copy.add(&[0xff; 20])?;
            copy.add(b"\x02\x2d\xfa\x14\x40\x00\x00\x00")
        }
        Kind::Stride | Kind::OneBlock => {
            copy.add(front())?;
            copy.add(record)
        }
    }
}

/// The devicetree of such a board, with two systems.
pub fn source(alloc: Global, kind: Kind) -> Result<Bytes, NoMemory> {
    let mut text = Bytes::none(alloc);
    add_source(&mut text, kind)?;
    Ok(text)
}

fn add_source(text: &mut Bytes, kind: Kind) -> Result<(), NoMemory> {
    text.add(backend(kind))?;
    text.add(variables())
}

fn backend(kind: Kind) -> &'static [u8] {
    match kind {
        Kind::Stride => {
            b"/dts-v1/;
/ {
  flash { part { phandle = <1>; reg = <0 0xc0>; }; };
  state {
    backend-stridesize = <0x40>;
"
        }
        Kind::OneBlock => {
            b"/dts-v1/;
/ {
  flash { part { phandle = <1>; reg = <0 0x300>; }; };
  state {
    backend-storage-type = \"noncircular\";
"
        }
        Kind::Log => {
            b"/dts-v1/;
/ {
  flash { part { phandle = <1>; reg = <0 0x300>; }; };
  state {
"
        }
    }
}

fn variables() -> &'static [u8] {
    b"    compatible = \"barebox,state\";
    magic = <0x4d433230>;
    backend-type = \"raw\";
    backend = <1>;
    bootstate {
      system0 {
        remaining_attempts@0 { reg = <0 4>; type = \"uint32\"; default = <3>; };
        priority@4 { reg = <4 4>; type = \"uint32\"; default = <20>; };
      };
      system1 {
        remaining_attempts@8 { reg = <8 4>; type = \"uint32\"; default = <3>; };
        priority@c { reg = <12 4>; type = \"uint32\"; default = <10>; };
      };
      last_chosen@10 { reg = <16 4>; type = \"uint32\"; };
    };
  };
};
"
}
