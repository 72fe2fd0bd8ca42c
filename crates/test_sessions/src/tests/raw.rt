// Raw areas that are printed and saved, and what the device's copies say of them.
use super::{
    ENTRY_LEN, FOUND, NONE, answers, board, board_of, entry, fresh, holds, look, lose, save, says,
    session, shows, strides, written,
};
use bb_base::MemSink;
use bb_flash::{Fault, Fill, MemBoard};
use bb_tool::Status;
use std::alloc::Global;
use std::process::Abort;
use std::test::Fail;

// What a write that failed left, after a front that was voided.
fn voided() -> [u8; ENTRY_LEN] {
    *b"\x00\x00\x00\x00\x00\x00\x00\x00\xa5\xa5\xa5\xa5\xa5\xa5\xa5\xa5\xa5\xa5\xa5\xa5\xa5\xa5\xa5\xa5\xa5\xa5\xa5\xa5\xa5\xa5\xa5\xa5\xa5"
}

#[test]
fn a_fresh_device_holds_none(rt: HostRuntime) -> Result<(), Fail> {
    let alloc = rt.alloc();
    let mut device = board(alloc, &fresh())?;
    shows(&rt, alloc, &mut device, NONE)?;
    holds(&rt, &device, &fresh());
    Ok(())
}

// A look at a device of these bytes sends this, in so many reads.
fn shows_by(
    rt: &impl Abort,
    alloc: Global,
    bytes: &[u8],
    sends: &str,
    reads: u64,
) -> Result<(), Fail> {
    let mut device = board(alloc, bytes)?;
    shows(rt, alloc, &mut device, sends)?;
    assert_eq!(rt; device.reads(), reads);
    Ok(())
}

#[test]
fn the_first_passing_copy_is_printed(rt: HostRuntime) -> Result<(), Fail> {
    let alloc = rt.alloc();
    let mut bytes = written();
    // The front and the record of copy 0, and no other copy.
    shows_by(&rt, alloc, &bytes, FOUND, 2)?;
    // Copy 0 passes nothing, and copy 1 stands in for it.
    bytes[24] = 0x30;
    shows_by(&rt, alloc, &bytes, FOUND, 4)?;
    // The fronts of the others were voided.
    bytes[64] = 0;
    bytes[128] = 0;
    shows_by(&rt, alloc, &bytes, NONE, 4)
}

// A page of this device is a byte. One in each copy is lost.
fn lose_three(rt: &impl Abort, device: &mut MemBoard) {
    lose(rt, device, 7);
    lose(rt, device, 64 + 8);
    lose(rt, device, 128 + 32);
}

#[test]
fn bytes_in_lost_pages_dont_count(rt: HostRuntime) -> Result<(), Fail> {
    let alloc = rt.alloc();
    let mut device = board(alloc, &written())?;
    lose_three(&rt, &mut device);
    shows(&rt, alloc, &mut device, NONE)
}

// An area is saved, and leaves these bytes, in three programs.
fn saves(rt: &impl Abort, alloc: Global, device: &mut MemBoard, bytes: &[u8]) -> Result<(), Fail> {
    says(rt, alloc, &save(), device, Status::Done, "")?;
    holds(rt, device, bytes);
    assert_eq!(rt; device.programs(), 3);
    Ok(())
}

fn is_saved_and_printed(rt: &impl Abort, alloc: Global, device: &mut MemBoard) -> Result<(), Fail> {
    saves(rt, alloc, device, &written())?;
    shows(rt, alloc, device, FOUND)
}

#[test]
fn an_area_is_saved_and_printed(rt: HostRuntime) -> Result<(), Fail> {
    let alloc = rt.alloc();
    let mut device = board(alloc, &fresh())?;
    assert_eq!(rt; Status::Done.code(), 0);
    is_saved_and_printed(&rt, alloc, &mut device)
}

fn no_byte_is_saved(rt: &impl Abort, alloc: Global, device: &mut MemBoard) -> Result<(), Fail> {
    let save = ["raw", "0x12345678", "0", "-s", ""];
    says(rt, alloc, &save, device, Status::Done, "")?;
    let look = ["raw", "0x12345678", "0", "-g"];
    says(rt, alloc, &look, device, Status::Done, "\n")
}

#[test]
fn an_area_of_no_byte_is_saved(rt: HostRuntime) -> Result<(), Fail> {
    let alloc = rt.alloc();
    let mut device = board_of(alloc, "ov:72", &[0xff; 72])?;
    no_byte_is_saved(&rt, alloc, &mut device)
}

// An area of 300 bytes, whose record has 316.
const LONG: &str = "\
    00070e151c232a31383f464d545b626970777e858c939aa1a8afb6bdc4cb\
    d2d9e0e7eef5fc030a11181f262d343b424950575e656c737a81888f969d\
    a4abb2b9c0c7ced5dce3eaf1f8ff060d141b222930373e454c535a61686f\
    767d848b9299a0a7aeb5bcc3cad1d8dfe6edf4fb020910171e252c333a41\
    484f565d646b727980878e959ca3aab1b8bfc6cdd4dbe2e9f0f7fe050c13\
    1a21282f363d444b525960676e757c838a91989fa6adb4bbc2c9d0d7dee5\
    ecf3fa01080f161d242b323940474e555c636a71787f868d949ba2a9b0b7\
    bec5ccd3dae1e8eff6fd040b121920272e353c434a51585f666d747b8289\
    90979ea5acb3bac1c8cfd6dde4ebf2f900070e151c232a31383f464d545b\
    626970777e858c939aa1a8afb6bdc4cbd2d9e0e7eef5fc030a11181f262d";

fn long_is_saved(rt: &impl Abort, alloc: Global, device: &mut MemBoard) -> Result<(), Fail> {
    let save = ["raw", "0x12345678", "300", "-s", LONG];
    says(rt, alloc, &save, device, Status::Done, "")
}

fn long_is_shown(rt: &impl Abort, alloc: Global, device: &mut MemBoard) -> Result<(), Fail> {
    let mut out = MemSink::with_room(alloc, 700)?;
    let look = ["raw", "0x12345678", "300", "-g"];
    let answer = session(alloc, &look, device, &mut out)?;
    answers(rt, answer, Status::Done, LONG);
    is_long(rt, out.sent_bytes());
    Ok(())
}

fn is_long(rt: &impl Abort, sent: &[u8]) {
    assert_eq!(rt; sent.len(), 601);
    assert!(rt; sent.starts_with(LONG.as_bytes()));
}

// No read is longer than a piece.
fn long_is_read_in_pieces(
    rt: &impl Abort,
    alloc: Global,
    device: &mut MemBoard,
) -> Result<(), Fail> {
    long_is_saved(rt, alloc, device)?;
    long_is_saved(rt, alloc, device)?;
    long_is_shown(rt, alloc, device)?;
    // By a layout of another length it shows its first bytes.
    shows(rt, alloc, device, "00070e151c232a3138\n")?;
    assert_eq!(rt; device.programs(), 6);
    assert_eq!(rt; device.largest_read(), 256);
    Ok(())
}

#[test]
fn a_long_record_is_read_in_pieces(rt: HostRuntime) -> Result<(), Fail> {
    let alloc = rt.alloc();
    let mut device = board_of(alloc, "ov:1200", &[0xff; 1200])?;
    long_is_read_in_pieces(&rt, alloc, &mut device)
}

// A read of each copy's front, and then the write of copy 0, which fails.
fn write_0_fails(rt: &impl Abort, alloc: Global, device: &mut MemBoard) -> Result<(), Fail> {
    device.plan_fault(3, Fault::Fail(Fill::Junk))?;
    saves(rt, alloc, device, &strides([voided(), entry(), entry()]))
}

#[test]
fn a_copy_whose_write_fails_is_voided(rt: HostRuntime) -> Result<(), Fail> {
    let alloc = rt.alloc();
    let mut device = board(alloc, &fresh())?;
    write_0_fails(&rt, alloc, &mut device)
}

fn fits_up_to_40(rt: &impl Abort, alloc: Global, device: &mut MemBoard) -> Result<(), Fail> {
    let line = "fault 3 BadLayout TooSmall\n";
    let long = ["raw", "0x12345678", "41", "-g"];
    says(rt, alloc, &long, device, Status::BadLayout, line)?;
    let short = ["raw", "0x12345678", "40", "-g"];
    says(rt, alloc, &short, device, Status::Done, NONE)
}

#[test]
fn layouts_that_dont_fit_are_refused(rt: HostRuntime) -> Result<(), Fail> {
    let alloc = rt.alloc();
    let mut device = board(alloc, &fresh())?;
    fits_up_to_40(&rt, alloc, &mut device)
}

fn is_refused(rt: &impl Abort, alloc: Global, device: &mut MemBoard) -> Result<(), Fail> {
    let line = "fault 3 BadLayout BadProp backend-storage-type\n";
    says(rt, alloc, &look(), device, Status::BadLayout, line)?;
    says(rt, alloc, &save(), device, Status::BadLayout, line)
}

fn board_with_blocks(alloc: Global) -> Result<MemBoard, Fail> {
    let bytes = vec![in alloc; 0xffu8; 1048576]?;
    board_of(alloc, "er:256:65536:1048576", bytes.as_slice())
}

#[test]
fn devices_with_blocks_are_refused(rt: HostRuntime) -> Result<(), Fail> {
    let alloc = rt.alloc();
    let mut device = board_with_blocks(alloc)?;
    is_refused(&rt, alloc, &mut device)
}
