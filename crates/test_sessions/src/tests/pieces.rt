// Blocks and records that are longer than the piece of 256 bytes that a session reads at a time.
use super::states::says_of;
use super::{ENTRY_LEN, FOUND, NONE, board_of, entry, look, lose, says};
use bb_flash::{Fault, Fill, MemBoard, geometry_of};
use bb_tool::Status;
use std::alloc::Global;
use std::process::Abort;
use std::test::Fail;

// The state of a boot, in three blocks of 4 MiB.
const BOOT: &str = "/dts-v1/;
/ {
    part: partition { reg = <0x0 0xc00000>; };
    state {
        compatible = \"barebox,state\"; magic = <0x4d433230>; backend-type = \"raw\"; \
        backend = <&part>;
        bootstate {
            system0 {
                remaining_attempts@0 { reg = <0 4>; type = \"uint32\"; default = <3>; };
                priority@4 { reg = <4 4>; type = \"uint32\"; default = <20>; };
            };
            system1 {
                remaining_attempts@8 { reg = <8 4>; type = \"uint32\"; default = <3>; };
                priority@c { reg = <12 4>; type = \"uint32\"; default = <10>; };
            };
            last_chosen@10 { reg = <16 4>; type = \"uint32\"; };
        };
    };
};";

// What a copy begins with where the priority of system1 is 30, and all else is the default.
const PREFERRED: &[u8] = b"\x30\x32\x43\x4d\x00\x00\x14\x00\xb7\x55\xc5\x8c\xb0\x6c\xbc\x65\
    \x03\x00\x00\x00\x14\x00\x00\x00\x03\x00\x00\x00\x1e\x00\x00\x00\x00\x00\x00\x00";

// A blank device, with room for reads of all pages of three blocks of 4 MiB.
fn blank_board(alloc: Global, word: &str) -> Result<MemBoard, Fail> {
    let Some(geometry) = geometry_of(word) else {
        return Err(Fail::from("no geometry"));
    };
    let bytes = vec![in alloc; 0xffu8; geometry.size as usize]?;
    Ok(MemBoard::of(alloc, geometry, bytes.as_slice(), 60000, 200000)?)
}

// Each block begins with that, and no read is longer than a page.
fn blocks_are_written(rt: &impl Abort, device: &MemBoard) {
    assert_eq!(rt; device.programs(), 3);
    assert_eq!(rt; device.largest_read(), 256);
    for place in [0usize, 4194304, 8388608] {
        let rest = device.bytes().get(place..).unwrap_or(&[]);
        assert!(rt; rest.starts_with(PREFERRED));
    }
}

#[test]
fn blocks_of_4_mib_are_read_by_the_page(rt: HostRuntime) -> Result<(), Fail> {
    let alloc = rt.alloc();
    let mut device = blank_board(alloc, "er:256:4194304:12582912")?;
    let get = "bootstate.system1.priority";
    let words = [
        "state",
        "-i",
        "a.dts",
        "-s",
        "bootstate.system1.priority=30",
        "-g",
        get,
    ];
    says_of(&rt, alloc, &words, BOOT, &mut device, Status::Done, "30\n")?;
    blocks_are_written(&rt, &device);
    Ok(())
}

// A number in three blocks of 256 bytes.
const SMALL: &str = "/dts-v1/;
/ {
    part { phandle = <1>; reg = <0 768>; };
    state {
        compatible = \"barebox,state\"; magic = <0x12345678>; backend-type = \"raw\"; backend = <1>;
        n@0 { reg = <0 4>; type = \"uint32\"; };
    };
};";

// The same in three blocks of 16,384 bytes.
const LARGE: &str = "/dts-v1/;
/ {
    part { phandle = <1>; reg = <0 49152>; };
    state {
        compatible = \"barebox,state\"; magic = <0x12345678>; backend-type = \"raw\"; backend = <1>;
        n@0 { reg = <0 4>; type = \"uint32\"; };
    };
};";

// The number is saved twice and then shown. The answer is how long the longest read was.
fn saves_twice(rt: &impl Abort, alloc: Global, word: &str, source: &str) -> Result<u32, Fail> {
    let mut device = blank_board(alloc, word)?;
    let first = ["state", "-i", "a.dts", "-s", "n=7", "-g", "n"];
    says_of(rt, alloc, &first, source, &mut device, Status::Done, "7\n")?;
    let second = ["state", "-i", "a.dts", "-s", "n=8", "-g", "n"];
    says_of(rt, alloc, &second, source, &mut device, Status::Done, "8\n")?;
    let get = ["state", "-i", "a.dts", "-g", "n"];
    says_of(rt, alloc, &get, source, &mut device, Status::Done, "8\n")?;
    assert_eq!(rt; device.programs(), 6);
    Ok(device.largest_read())
}

#[test]
fn pages_of_16_and_of_16384_bytes_are_read(rt: HostRuntime) -> Result<(), Fail> {
    let alloc = rt.alloc();
    let small = saves_twice(&rt, alloc, "er:16:256:768", SMALL)?;
    assert!(rt; small <= 256);
    let large = saves_twice(&rt, alloc, "er:16384:16384:49152", LARGE)?;
    assert_eq!(rt; large, 16384);
    Ok(())
}

// A text of 600 bytes, in three strides of 700: a record has three pieces.
const LONG: &str = "/dts-v1/;
/ {
    part { phandle = <1>; reg = <0 2100>; };
    state {
        compatible = \"barebox,state\"; magic = <0x12345678>; backend-type = \"raw\"; backend = <1>;
        backend-stridesize = <700>;
        t@0 { reg = <0 600>; type = \"string\"; };
    };
};";

// A session of these words is done and sends this.
fn does(
    rt: &impl Abort,
    alloc: Global,
    words: &[&str],
    device: &mut MemBoard,
    sends: &str,
) -> Result<(), Fail> {
    says_of(rt, alloc, words, LONG, device, Status::Done, sends)
}

fn shows(rt: &impl Abort, alloc: Global, device: &mut MemBoard, sends: &str) -> Result<(), Fail> {
    does(
        rt,
        alloc,
        &["state", "-i", "a.dts", "-g", "t"],
        device,
        sends,
    )
}

// A device on which the text `abc` was saved.
fn saved(rt: &impl Abort, alloc: Global) -> Result<MemBoard, Fail> {
    let mut device = board_of(alloc, "ov:2100", &[0xff; 2100])?;
    does(
        rt,
        alloc,
        &["state", "-i", "a.dts", "-s", "t=abc"],
        &mut device,
        "",
    )?;
    assert_eq!(rt; device.programs(), 3);
    Ok(device)
}

// The device shows this, and has then made so many programs.
fn shows_after(
    rt: &impl Abort,
    alloc: Global,
    device: &mut MemBoard,
    sends: &str,
    programs: u64,
) -> Result<(), Fail> {
    shows(rt, alloc, device, sends)?;
    assert_eq!(rt; device.programs(), programs);
    assert_eq!(rt; device.largest_read(), 256);
    Ok(())
}

// A copy whose page is lost is written anew.
fn is_mended(rt: &impl Abort, alloc: Global, page: u32) -> Result<(), Fail> {
    let mut device = saved(rt, alloc)?;
    lose(rt, &mut device, page);
    shows_after(rt, alloc, &mut device, "abc\n", 4)
}

#[test]
fn a_lost_page_in_each_piece_is_found(rt: HostRuntime) -> Result<(), Fail> {
    // In the three pieces of copy 0, and then at both ends of a piece of copy 1.
    for page in [108u32, 364, 608, 708, 963] {
        is_mended(&rt, rt.alloc(), page)?;
    }
    Ok(())
}

// One page is lost in the first piece of a copy, in the second of the next, and in the third.
fn lose_all(rt: &impl Abort, device: &mut MemBoard) {
    lose(rt, device, 108);
    lose(rt, device, 1064);
    lose(rt, device, 2008);
}

#[test]
fn a_lost_page_in_each_copy_leaves_none(rt: HostRuntime) -> Result<(), Fail> {
    let alloc = rt.alloc();
    let mut device = saved(&rt, alloc)?;
    lose_all(&rt, &mut device);
    shows_after(&rt, alloc, &mut device, "\n", 3)
}

// How many calls a session makes that shows the text.
fn calls_of_a_look(rt: &impl Abort, alloc: Global) -> Result<u64, Fail> {
    let mut device = saved(rt, alloc)?;
    let before = device.reads();
    shows_after(rt, alloc, &mut device, "abc\n", 3)?;
    Ok(device.reads().saturating_sub(before))
}

// The read of this number fails, and the next session finds what was saved.
fn fails_at(rt: &impl Abort, alloc: Global, call: u32) -> Result<(), Fail> {
    let mut device = saved(rt, alloc)?;
    device.restart();
    device.plan_fault(call, Fault::Fail(Fill::Old))?;
    let (words, line) = (["state", "-i", "a.dts", "-g", "t"], "fault 8 ReadFault\n");
    says_of(
        rt,
        alloc,
        &words,
        LONG,
        &mut device,
        Status::ReadFault,
        line,
    )?;
    shows_after(rt, alloc, &mut device, "abc\n", 3)
}

#[test]
fn the_read_of_each_piece_of_each_copy_may_fail(rt: HostRuntime) -> Result<(), Fail> {
    let alloc = rt.alloc();
    let calls = calls_of_a_look(&rt, alloc)?;
    // At least a front and three pieces of each copy.
    assert!(rt; 12 <= calls && calls <= 100);
    for call in 0..calls as u32 {
        fails_at(&rt, alloc, call)?;
    }
    Ok(())
}

// The worked record in the first of three strides of 300 bytes, after a front of this length.
fn with_length(len: u32) -> [u8; 900] {
    let mut bytes = [0xff; 900];
    bytes[..ENTRY_LEN].copy_from_slice(&entry());
    bytes[4..8].copy_from_slice(&len.to_le_bytes());
    bytes
}

fn is_looked_at(rt: &impl Abort, alloc: Global, len: u32, sends: &str) -> Result<(), Fail> {
    let mut device = board_of(alloc, "ov:900", &with_length(len))?;
    says(rt, alloc, &look(), &mut device, Status::Done, sends)?;
    assert!(rt; device.largest_read() <= 256);
    Ok(())
}

// The first 25 bytes are the record, whatever comes after them in its stride.
#[test]
fn fronts_say_how_long_a_record_is(rt: HostRuntime) -> Result<(), Fail> {
    let alloc = rt.alloc();
    for len in [0, 1, 10, 24, 293, u32::MAX] {
        is_looked_at(&rt, alloc, len, NONE)?;
    }
    is_longer(&rt, alloc)
}

fn is_longer(rt: &impl Abort, alloc: Global) -> Result<(), Fail> {
    for len in [25, 255, 256, 257, 292] {
        is_looked_at(rt, alloc, len, FOUND)?;
    }
    Ok(())
}
