// Devices with three copies: strides of 64 bytes, and erase blocks of 256 bytes in pages of 32,
// which hold one record each, or a log each. An entry of a log has two pages, and a block room for
// four.
use bb_base::{Bytes, NoMemory};
use bb_flash::{MemBoard, geometry_of};
use std::alloc::Global;
use std::test::Fail;

/// What a copy stands in.
#[derive(Clone, Copy)]
pub enum Kind {
    Stride,
    OneBlock,
    Log,
}

fn geometry_word(kind: Kind) -> &'static str {
    match kind {
        Kind::Stride => "ov:192",
        Kind::OneBlock | Kind::Log => "er:32:256:768",
    }
}

/// A board on which nothing was ever stored.
pub fn blank(alloc: Global, kind: Kind) -> Result<MemBoard, Fail> {
    let Some(geometry) = geometry_of(geometry_word(kind)) else {
        return Err(Fail::from("no geometry"));
    };
    let mut bytes = Bytes::none(alloc);
    for _ in 0..geometry.size {
        bytes.add(b"\xff")?;
    }
    if bytes.as_slice().len() != geometry.size as usize {
        return Err(Fail::from("another size"));
    }
    Ok(MemBoard::of(alloc, geometry, bytes.as_slice(), 200, 19_999)?)
}

/// The devicetree of such a board, with two systems.
pub fn source(alloc: Global, kind: Kind) -> Result<Bytes, NoMemory> {
    let mut text = Bytes::none(alloc);
    add_source(&mut text, kind)?;
    Ok(text)
}

fn add_source(text: &mut Bytes, kind: Kind) -> Result<(), NoMemory> {
    text.add(backend(kind))?;
    text.add(variables())
}

fn backend(kind: Kind) -> &'static [u8] {
    match kind {
        Kind::Stride => {
            b"/dts-v1/;
/ {
  flash { part { phandle = <1>; reg = <0 0xc0>; }; };
  state {
    backend-stridesize = <0x40>;
"
        }
        Kind::OneBlock => {
            b"/dts-v1/;
/ {
  flash { part { phandle = <1>; reg = <0 0x300>; }; };
  state {
    backend-storage-type = \"noncircular\";
"
        }
        Kind::Log => {
            b"/dts-v1/;
/ {
  flash { part { phandle = <1>; reg = <0 0x300>; }; };
  state {
"
        }
    }
}

fn variables() -> &'static [u8] {
    b"    compatible = \"barebox,state\";
    magic = <0x4d433230>;
    backend-type = \"raw\";
    backend = <1>;
    bootstate {
      system0 {
        remaining_attempts@0 { reg = <0 4>; type = \"uint32\"; default = <3>; };
        priority@4 { reg = <4 4>; type = \"uint32\"; default = <20>; };
      };
      system1 {
        remaining_attempts@8 { reg = <8 4>; type = \"uint32\"; default = <3>; };
        priority@c { reg = <12 4>; type = \"uint32\"; default = <10>; };
      };
      last_chosen@10 { reg = <16 4>; type = \"uint32\"; };
    };
  };
};
"
}
