// Menus of folders: their texts, and that the device isn't asked: its first call is planned to
// fail.
use super::{answers, board, fresh, holds, sent, words};
use bb_base::{MemFiles, MemSink};
use bb_flash::{Fault, Fill, MemBoard};
use bb_tool::{Status, run};
use std::alloc::Global;
use std::process::Abort;
use std::test::Fail;

const OLD: &[u8] = b"title Old\nversion 1.2\nlinux /old\n";

const NEW: &[u8] = b"version 1.10\nlinux /new\n";

// A folder of two entries, and a file in the place of another folder.
fn folder(alloc: Global) -> Result<MemFiles, Fail> {
    let mut files = MemFiles::none(alloc);
    files.add("m/b-1.2.conf", OLD)?;
    files.add("m/b-1.10.conf", NEW)?;
    files.add("m/readme.txt", b"none")?;
    files.add("file", b"none")?;
    Ok(files)
}

fn device_unasked(alloc: Global) -> Result<MemBoard, Fail> {
    let mut device = board(alloc, &fresh())?;
    device.plan_fault(0, Fault::Fail(Fill::Junk))?;
    Ok(device)
}

// The menu of this folder ends so and sends this, and no call of the device is made.
fn menu(
    rt: &impl Abort,
    alloc: Global,
    files: &mut MemFiles,
    dir: &str,
    status: Status,
    sends: &str,
) -> Result<(), Fail> {
    let mut device = device_unasked(alloc)?;
    let mut out = MemSink::with_room(alloc, 100)?;
    let list = words(alloc, &["menu", "--dir", dir])?;
    let answer = run(alloc, &list, files, &mut device, &mut out);
    answers(rt, answer, status, sends);
    sent(rt, &out, sends);
    holds(rt, &device, &fresh());
    assert!(rt; !device.faulted(), "a call of the device");
    Ok(())
}

#[test]
fn the_entries_of_a_folder_stand_in_their_order(rt: HostRuntime) -> Result<(), Fail> {
    let alloc = rt.alloc();
    let mut files = folder(alloc)?;
    let sends = "b-1.10.conf /new\nb-1.2.conf Old\n";
    menu(&rt, alloc, &mut files, "m", Status::Done, sends)
}

#[test]
fn a_folder_that_isnt_there_is_missing(rt: HostRuntime) -> Result<(), Fail> {
    let alloc = rt.alloc();
    let mut files = folder(alloc)?;
    let none = "fault 5 FileMissing none\n";
    menu(&rt, alloc, &mut files, "none", Status::FileMissing, none)?;
    let file = "fault 5 FileMissing file\n";
    menu(&rt, alloc, &mut files, "file", Status::FileMissing, file)
}

#[test]
fn a_fault_at_each_call_of_a_folder(rt: HostRuntime) -> Result<(), Fail> {
    let alloc = rt.alloc();
    let fault = "fault 6 FileFault m\n";
    for call in 0..3 {
        let mut files = folder(alloc)?;
        files.fail_call(call)?;
        menu(&rt, alloc, &mut files, "m", Status::FileFault, fault)?;
    }
    let mut files = folder(alloc)?;
    files.fail_call(3)?;
    let sends = "b-1.10.conf /new\nb-1.2.conf Old\n";
    menu(&rt, alloc, &mut files, "m", Status::Done, sends)
}
