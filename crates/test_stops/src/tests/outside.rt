// Files that fail at a call, and an output without room.
use super::rig::{Rig, board};
use super::{answers, files_of, sent, session};
use bb_base::{MemFiles, MemSink};
use bb_tool::Status;
use std::alloc::Global;
use std::process::Abort;
use std::test::Fail;

// What a session on a blank device answers and sends.
fn ends(
    rt: &impl Abort,
    alloc: Global,
    line: &str,
    files: &mut MemFiles,
    out: &mut MemSink,
    status: Status,
    sends: &str,
) -> Result<(), Fail> {
    let mut device = board(alloc, Rig::Log, [&[], &[], &[]])?;
    let answer = session(alloc, line, files, &mut device, out)?;
    answers(rt, answer, status, sends);
    sent(rt, out, sends);
    Ok(())
}

// A session whose call of the files with this number fails.
fn tells_of_the_file(
    rt: &impl Abort,
    alloc: Global,
    line: &str,
    call: u32,
    sends: &str,
) -> Result<(), Fail> {
    let mut files = files_of(alloc, Rig::Log)?;
    files.fail_call(call)?;
    let mut out = MemSink::with_room(alloc, 100)?;
    ends(
        rt,
        alloc,
        line,
        &mut files,
        &mut out,
        Status::FileFault,
        sends,
    )
}

const GET: &str = "state -i board.dts -g bootstate.system0.remaining_attempts";

const BOOT: &str = "boot -i board.dts -c set.txt";

#[test]
fn file_call_0_of_a_state_fails(rt: HostRuntime) -> Result<(), Fail> {
    assert_eq!(rt; Status::FileFault.code(), 6);
    tells_of_the_file(&rt, rt.alloc(), GET, 0, "fault 6 FileFault board.dts\n")
}

#[test]
fn each_file_call_of_a_boot_fails(rt: HostRuntime) -> Result<(), Fail> {
    let alloc = rt.alloc();
    tells_of_the_file(&rt, alloc, BOOT, 0, "fault 6 FileFault board.dts\n")?;
    tells_of_the_file(&rt, alloc, BOOT, 1, "fault 6 FileFault set.txt\n")?;
    let first = "fault 6 FileFault loader/entries/system0.conf\n";
    tells_of_the_file(&rt, alloc, BOOT, 2, first)?;
    let second = "fault 6 FileFault loader/entries/system1.conf\n";
    tells_of_the_file(&rt, alloc, BOOT, 3, second)
}

#[test]
fn an_output_with_room_for_one_byte(rt: HostRuntime) -> Result<(), Fail> {
    let alloc = rt.alloc();
    assert_eq!(rt; Status::SinkFault.code(), 14);
    let mut files = files_of(alloc, Rig::Log)?;
    let mut out = MemSink::with_room(alloc, 1)?;
    ends(&rt, alloc, GET, &mut files, &mut out, Status::SinkFault, "")
}
