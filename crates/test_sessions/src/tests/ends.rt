// Records under a key, and how their strides' fronts say that they end.
ghost use Rattle.std.specs.Prelude.{◌≤◌};

use super::board_of;
use super::states::says;
use bb_base::MemFiles;
use bb_tool::Status;
use std::alloc::Global;
use std::process::Abort;
use std::test::Fail;

// A number in three strides of 100 bytes.
const SOURCE: &str = "/dts-v1/;
/ {
    part { phandle = <1>; reg = <0 300>; };
    state {
        compatible = \"barebox,state\"; magic = <0x12345678>; backend-type = \"raw\"; backend = <1>;
        algo = \"hmac(sha256)\";
        n@0 { reg = <0 4>; type = \"uint32\"; };
    };
};";

// The front of a stride and the record of the number 7: 16 bytes, the number, and its code of 32.
fn entry() -> [u8; 60] {
    *b"\xf3\xfd\x54\x23\x34\x00\x00\x00\x78\x56\x34\x12\x00\x00\x04\x00\xa5\xe7\x93\xbc\
        \xcd\x25\x84\xff\x07\x00\x00\x00\xae\x80\xe7\x3e\x42\x5b\xf8\x5f\x74\x3f\x0f\x43\
        \x50\xe8\x13\xe9\xc9\x74\xe0\x3b\xe3\x30\x69\x30\x0e\xa9\xa2\x5c\x56\x88\x53\x72"
}

// The device with these bytes from there on.
fn with(mut device: [u8; 300], at: usize, begins: [u8; 60]) -> [u8; 300]
    requires { at ≤ 240 }
{
    device[at..at + 60].copy_from_slice(&begins);
    device
}

// A device whose copies all say that the record has this length.
fn keyed_device(len: u32) -> [u8; 300] {
    let mut begins = entry();
    begins[4..8].copy_from_slice(&len.to_le_bytes());
    with(with(with([0xff; 300], 0, begins), 100, begins), 200, begins)
}

fn files(alloc: Global) -> Result<MemFiles, Fail> {
    let mut files = MemFiles::none(alloc);
    files.add("a.dts", SOURCE.as_bytes())?;
    files.add("key.hex", b"4a656665")?;
    Ok(files)
}

// A device whose copies say this gives the number, and isn't written.
fn gives(rt: &impl Abort, alloc: Global, len: u32, sends: &str) -> Result<(), Fail> {
    let mut device = board_of(alloc, "ov:300", &keyed_device(len))?;
    let words = ["state", "-i", "a.dts", "-k", "key.hex", "-g", "n"];
    let mut files = files(alloc)?;
    says(
        rt,
        alloc,
        &words,
        &mut files,
        &mut device,
        Status::Done,
        sends,
    )?;
    assert_eq!(rt; device.programs(), 0);
    Ok(())
}

// It ends in or after its header, after the number, in its code, or doesn't lie in its stride.
#[test]
fn a_record_that_ends_early_is_none(rt: HostRuntime) -> Result<(), Fail> {
    for len in [0, 10, 16, 19, 20, 21, 51, 93] {
        gives(&rt, rt.alloc(), len, "0\n")?;
    }
    Ok(())
}

#[test]
fn what_comes_after_a_record_doesnt_count(rt: HostRuntime) -> Result<(), Fail> {
    for len in [52, 53, 92] {
        gives(&rt, rt.alloc(), len, "7\n")?;
    }
    Ok(())
}
