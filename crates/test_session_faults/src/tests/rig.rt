// The devices of these trials, and the sources of the states that stand there.
use super::entries::Entry;
use bb_base::{Bytes, NoMemory};
use bb_flash::{MemBoard, geometry_of};
use std::alloc::Global;
use std::process::Abort;
use std::test::Fail;

/// A device, and a state on it.
#[derive(Clone, Copy)]
pub enum Rig {
    /// A device of 192 bytes that holds one number of 4 bytes in three strides.
    Strides,
    /// The same by a layout with one more number of 4 bytes.
    Grown,
    /// A device of three erase blocks of 256 bytes, in pages of 32. It holds one number of 4 bytes
    /// and a text of 16, so that an entry has two pages, in blocks of one record.
    OneBlock,
    /// The same in logs: a block has room for four entries.
    Log,
    /// The device with blocks of one record, by a layout with one more number of 4 bytes.
    GrownBlock,
    /// The same in logs.
    GrownLog,
    /// A device of 1 MiB that holds the state of a boot, in strides from 131,072 on.
    Boot,
    /// The same that holds variables of four kinds.
    Kinds,
}

/// The length of a block.
pub const BLOCK_LEN: usize = 256;

/// The length of a stride.
pub const STRIDE_LEN: usize = 64;

impl Rig {
    /// The source of the state.
    pub fn source(self) -> &'static str {
        match self {
            Rig::Strides => STRIDES,
            Rig::Grown => GROWN,
            Rig::OneBlock => ONE_BLOCK,
            Rig::Log => LOG,
            Rig::GrownBlock => GROWN_BLOCK,
            Rig::GrownLog => GROWN_LOG,
            Rig::Boot => BOOT,
            Rig::Kinds => KINDS,
        }
    }

    fn geometry(self) -> &'static str {
        match self {
            Rig::Strides | Rig::Grown => "ov:192",
            Rig::OneBlock | Rig::Log | Rig::GrownBlock | Rig::GrownLog => "er:32:256:768",
            Rig::Boot | Rig::Kinds => "ov:1048576",
        }
    }

    fn size(self) -> usize {
        match self {
            Rig::Strides | Rig::Grown => 192,
            Rig::OneBlock | Rig::Log | Rig::GrownBlock | Rig::GrownLog => 768,
            Rig::Boot | Rig::Kinds => 1048576,
        }
    }

    // Where the copies begin.
    fn places(self) -> [usize; 3] {
        match self {
            Rig::Strides | Rig::Grown => [0, 64, 128],
            Rig::OneBlock | Rig::Log | Rig::GrownBlock | Rig::GrownLog => [0, 256, 512],
            Rig::Boot | Rig::Kinds => [131072, 131136, 131200],
        }
    }
}

/// A device whose copies begin with these entries, one after the other. All else is blank.
pub fn board(alloc: Global, rig: Rig, copies: [&[Entry]; 3]) -> Result<MemBoard, Fail> {
    let bytes = image(alloc, rig, copies)?;
    board_of(alloc, rig.geometry(), bytes.as_slice())
}

fn board_of(alloc: Global, geometry: &str, bytes: &[u8]) -> Result<MemBoard, Fail> {
    let Some(geometry) = geometry_of(geometry) else {
        return Err(Fail::from("no geometry"));
    };
    if bytes.len() != geometry.size as usize {
        return Err(Fail::from("another size"));
    }
    Ok(MemBoard::of(alloc, geometry, bytes, 200, 3000)?)
}

/// The device holds the bytes of such a one.
pub fn holds(
    rt: &impl Abort,
    alloc: Global,
    rig: Rig,
    device: &MemBoard,
    copies: [&[Entry]; 3],
) -> Result<(), Fail> {
    let wanted = image(alloc, rig, copies)?;
    is_image(rt, device, wanted.as_slice());
    Ok(())
}

fn is_image(rt: &impl Abort, device: &MemBoard, wanted: &[u8]) {
    assert!(rt; device.bytes() == wanted);
}

fn image(alloc: Global, rig: Rig, copies: [&[Entry]; 3]) -> Result<Bytes, NoMemory> {
    let mut bytes = Bytes::none(alloc);
    add_copies(alloc, &mut bytes, rig.places(), copies)?;
    fill_to(alloc, &mut bytes, rig.size())?;
    Ok(bytes)
}

fn add_copies(
    alloc: Global,
    bytes: &mut Bytes,
    places: [usize; 3],
    copies: [&[Entry]; 3],
) -> Result<(), NoMemory> {
    for (place, copy) in places.into_iter().zip(copies) {
        fill_to(alloc, bytes, place)?;
        add_entries(bytes, copy)?;
    }
    Ok(())
}

fn add_entries(bytes: &mut Bytes, entries: &[Entry]) -> Result<(), NoMemory> {
    for entry in entries {
        bytes.add(entry.bytes())?;
    }
    Ok(())
}

// Adds blank bytes up to there.
fn fill_to(alloc: Global, bytes: &mut Bytes, len: usize) -> Result<(), NoMemory> {
    let missing = len.saturating_sub(bytes.as_slice().len());
    let blank = vec![in alloc; 0xffu8; missing]?;
    bytes.add(blank.as_slice())
}

const STRIDES: &str = "/dts-v1/;
/ {
    part { phandle = <1>; reg = <0x0 0xc0>; };
    state {
        compatible = \"barebox,state\"; magic = <0x12345678>; backend-type = \"raw\"; backend = <1>;
        n@0 { reg = <0 4>; type = \"uint32\"; default = <3>; };
    };
};";

const GROWN: &str = "/dts-v1/;
/ {
    part { phandle = <1>; reg = <0x0 0xc0>; };
    state {
        compatible = \"barebox,state\"; magic = <0x12345678>; backend-type = \"raw\"; backend = <1>;
        n@0 { reg = <0 4>; type = \"uint32\"; default = <3>; };
        m@4 { reg = <4 4>; type = \"uint32\"; default = <7>; };
    };
};";

const ONE_BLOCK: &str = "/dts-v1/;
/ {
    part { phandle = <1>; reg = <0x0 0x300>; };
    state {
        compatible = \"barebox,state\"; magic = <0x12345678>; backend-type = \"raw\"; backend = <1>;
        backend-storage-type = \"noncircular\";
        n@0 { reg = <0 4>; type = \"uint32\"; default = <3>; };
        text@4 { reg = <4 16>; type = \"string\"; };
    };
};";

const LOG: &str = "/dts-v1/;
/ {
    part { phandle = <1>; reg = <0x0 0x300>; };
    state {
        compatible = \"barebox,state\"; magic = <0x12345678>; backend-type = \"raw\"; backend = <1>;
        n@0 { reg = <0 4>; type = \"uint32\"; default = <3>; };
        text@4 { reg = <4 16>; type = \"string\"; };
    };
};";

const GROWN_BLOCK: &str = "/dts-v1/;
/ {
    part { phandle = <1>; reg = <0x0 0x300>; };
    state {
        compatible = \"barebox,state\"; magic = <0x12345678>; backend-type = \"raw\"; backend = <1>;
        backend-storage-type = \"noncircular\";
        n@0 { reg = <0 4>; type = \"uint32\"; default = <3>; };
        text@4 { reg = <4 16>; type = \"string\"; };
        m@14 { reg = <20 4>; type = \"uint32\"; default = <7>; };
    };
};";

const GROWN_LOG: &str = "/dts-v1/;
/ {
    part { phandle = <1>; reg = <0x0 0x300>; };
    state {
        compatible = \"barebox,state\"; magic = <0x12345678>; backend-type = \"raw\"; backend = <1>;
        n@0 { reg = <0 4>; type = \"uint32\"; default = <3>; };
        text@4 { reg = <4 16>; type = \"string\"; };
        m@14 { reg = <20 4>; type = \"uint32\"; default = <7>; };
    };
};";

const BOOT: &str = "/dts-v1/;
/ {
    part: partition { reg = <0x20000 0x30000>; };
    state {
        compatible = \"barebox,state\"; magic = <0x4d433230>; backend-type = \"raw\"; \
        backend = <&part>;
        backend-stridesize = <0x40>;
        bootstate {
            system0 {
                remaining_attempts@0 { reg = <0 4>; type = \"uint32\"; default = <3>; };
                priority@4 { reg = <4 4>; type = \"uint32\"; default = <20>; };
            };
            system1 {
                remaining_attempts@8 { reg = <8 4>; type = \"uint32\"; default = <3>; };
                priority@c { reg = <12 4>; type = \"uint32\"; default = <10>; };
            };
            last_chosen@10 { reg = <16 4>; type = \"uint32\"; };
        };
    };
};";

const KINDS: &str = "/dts-v1/;
/ {
    part: partition { reg = <0x20000 0x30000>; };
    state {
        compatible = \"barebox,state\"; magic = <0x4d433230>; backend-type = \"raw\"; \
        backend = <&part>;
        backend-stridesize = <0x40>;
        n@0 { reg = <0 1>; type = \"uint8\"; };
        mode@4 { reg = <4 4>; type = \"enum32\"; names = \"primary\", \"backup\"; default = <1>; };
        eth@8 { reg = <8 6>; type = \"mac\"; default = [00 11 22 33 44 55]; };
        host@10 { reg = <16 4>; type = \"string\"; default = \"ab\"; };
    };
};";
